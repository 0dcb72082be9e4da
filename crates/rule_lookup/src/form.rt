//! The lookup forms of a peer.
ghost use Rattle.std.specs.Prelude.{◌≡◌, ◌++◌, ◌∷◌, [], map, string_bytes, IfOk, OnOk};
ghost use Rattle.rule_lookup.specs.Spread.{folded};
ghost use Rattle.rule_lookup.specs.Forms.{AddsForms, forms_of, dotted_fronts, user_at_address, user_at_host, host_alone, host_ends, any_host};

use crate::Peer;
use std::alloc::{AllocError, Global};
use std::net::Ipv4Addr;

/// The addresses under which a peer's rule is looked up, in the order of `docs/RULES.md`: the user at the address and
/// at the host, the address, the host, the prefixes of the address, the suffixes of the host, any host, and the empty
/// one. ASCII letters from the first `=` of a form on are made lower case.
pub fn forms(alloc: Global, peer: &Peer) -> Result<Vec<String>, AllocError>
    ensures { IfOk result (λ forms. map string_bytes forms.items ≡ forms_of peer.now) }
{
    let ip = Ipv4Addr::from_octets(peer.ip()).to_string(alloc)?;
    let mut forms = Vec::new(alloc);
    push_user_forms(alloc, &mut forms, peer, ip.as_str())?;
    push_form(alloc, &mut forms, "", ip.as_str())?;
    push_host(alloc, &mut forms, peer)?;
    push_fronts(alloc, &mut forms, ip.as_str())?;
    push_host_forms(alloc, &mut forms, peer)?;
    push_form(alloc, &mut forms, "", "")?;
    Ok(forms)
}

/// Adds the forms with a user: at the address, and at the host.
fn push_user_forms(
    alloc: Global,
    forms: &mut Vec<String>,
    peer: &Peer,
    ip: &str,
) -> Result<(), AllocError>
    ensures { OnOk result (AddsForms forms.old.items forms.new.items
        (user_at_address peer.now.info ip.now ++ user_at_host peer.now.info peer.now.host)) }
{
    let Some(user) = peer.info() else {
        return Ok(());
    };
    let at = text_of(alloc, user, "@")?;
    push_form(alloc, forms, at.as_str(), ip)?;
    if let Some(host) = peer.host() {
        let at_name = text_of(alloc, at.as_str(), "=")?;
        push_form(alloc, forms, at_name.as_str(), host)?;
    }
    Ok(())
}

/// Adds `=` and the host.
fn push_host(alloc: Global, forms: &mut Vec<String>, peer: &Peer) -> Result<(), AllocError>
    ensures { OnOk result (AddsForms forms.old.items forms.new.items (host_alone peer.now.host)) }
{
    if let Some(host) = peer.host() {
        push_form(alloc, forms, "=", host)?;
    }
    Ok(())
}

/// Adds `=` before the host's suffixes, and alone.
fn push_host_forms(alloc: Global, forms: &mut Vec<String>, peer: &Peer) -> Result<(), AllocError>
    ensures { OnOk result (AddsForms forms.old.items forms.new.items
        (host_ends peer.now.host ++ any_host peer.now.host)) }
{
    if let Some(host) = peer.host() {
        push_ends(alloc, forms, host)?;
        push_form(alloc, forms, "=", "")?;
    }
    Ok(())
}

/// Adds a form of two parts.
fn push_form(
    alloc: Global,
    forms: &mut Vec<String>,
    front: &str,
    back: &str,
) -> Result<(), AllocError>
    ensures { OnOk result (AddsForms forms.old.items forms.new.items ((front.now ++ back.now) ∷ [])) }
{
    let text = text_of(alloc, front, back)?;
    forms.push(fold(alloc, text.as_str())?)?;
    Ok(())
}

/// Adds the prefixes of an address that end with a dot, longest first.
fn push_fronts(alloc: Global, forms: &mut Vec<String>, ip: &str) -> Result<(), AllocError>
    ensures { OnOk result (AddsForms forms.old.items forms.new.items (dotted_fronts ip.now)) }
{
    for i in (0..ip.len()).rev() {
        if ip.as_bytes()[i] == b'.' {
            push_form(alloc, forms, "", &ip[..i + 1])?;
        }
    }
    Ok(())
}

/// Adds `=` before each proper suffix of a host that begins with a dot, longest first.
fn push_ends(alloc: Global, forms: &mut Vec<String>, host: &str) -> Result<(), AllocError>
    ensures { OnOk result (AddsForms forms.old.items forms.new.items (host_ends (Some host.now))) }
{
    for i in 1..host.len() {
        if host.as_bytes()[i] == b'.' {
            push_form(alloc, forms, "=", &host[i..])?;
        }
    }
    Ok(())
}

/// A text of two parts.
fn text_of(alloc: Global, front: &str, back: &str) -> Result<String, AllocError>
    ensures { IfOk result (λ text. string_bytes text ≡ front.now ++ back.now) }
{
    let mut text = String::from_str(alloc, front)?;
    text.push_str(back)?;
    Ok(text)
}

/// A text whose ASCII letters from the first `=` on are made lower case.
fn fold(alloc: Global, text: &str) -> Result<String, AllocError>
    ensures { IfOk result (λ own. string_bytes own ≡ folded text.now) }
{
    match text.split_once('=') {
        None => String::from_str(alloc, text),
        Some((front, back)) => {
            let name = text_of(alloc, front, "=")?;
            let lower = back.to_ascii_lowercase(alloc)?;
            text_of(alloc, name.as_str(), lower.as_str())
        }
    }
}
