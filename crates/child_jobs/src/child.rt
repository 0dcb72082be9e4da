//! The environment of a child.
ghost use Rattle.std.specs.Prelude.{◌≡◌, map, decimal, codes, IfOk, OnOk};
ghost use Rattle.std.specs.Net.Text.{ipv4_text};
ghost use Rattle.rule_lookup.specs.Peers.{given};
ghost use Rattle.child_jobs.specs.Child.{assigned, environment_of, of_connection, where_known, without_own};
ghost use Rattle.child_jobs.specs.Variables.{with_value, with_values};

use crate::{Environment, Local};
use itoa::Buffer;
use rule_lookup::{Decision, Peer, Setting};
use std::alloc::{AllocError, Global};
use std::net::Ipv4Addr;

/// The names of the variables that a connection gives. They are never inherited.
const OWN_NAMES: [&str; 8] = [
    "PROTO",
    "TCPLOCALIP",
    "TCPLOCALPORT",
    "TCPLOCALHOST",
    "TCPREMOTEIP",
    "TCPREMOTEPORT",
    "TCPREMOTEHOST",
    "TCPREMOTEINFO",
];

/// The environment of a child, by UCSPI-1996 and the page of `tcp-environ`.
///
/// It has what is inherited, without the names that a connection gives; over it what the connection tells; and over
/// these the settings of the rule that decided, in order.
///
/// # Errors
/// There was no memory.
pub fn build(
    alloc: Global,
    inherited: &Environment,
    local: &Local,
    peer: &Peer,
    decision: &Decision,
) -> Result<Environment, AllocError>
    ensures { IfOk result (λ variables. variables ≡ environment_of inherited.now local.now peer.now decision.now) }
{
    let mut variables = inherit(inherited)?;
    put_connection(alloc, &mut variables, local, peer)?;
    put_settings(alloc, &mut variables, decision.settings.as_slice())?;
    Ok(variables)
}

/// Copies what is inherited, without the names that a connection gives.
fn inherit(inherited: &Environment) -> Result<Environment, AllocError>
    ensures { IfOk result (λ variables. variables ≡ without_own inherited.now) }
{
    let mut variables = inherited.copy()?;
    for name in &OWN_NAMES {
        variables.remove(name);
    }
    Ok(variables)
}

/// Puts the variables of the connection.
fn put_connection(
    alloc: Global,
    variables: &mut Environment,
    local: &Local,
    peer: &Peer,
) -> Result<(), AllocError>
    ensures { OnOk result (variables.new ≡ with_values variables.old (of_connection local.now peer.now)) }
{
    variables.put(alloc, "PROTO", "TCP")?;
    put_address(alloc, variables, "TCPLOCALIP", local.ip())?;
    put_port(alloc, variables, "TCPLOCALPORT", local.port())?;
    put_address(alloc, variables, "TCPREMOTEIP", peer.ip())?;
    put_port(alloc, variables, "TCPREMOTEPORT", peer.port())?;
    put_known(alloc, variables, "TCPLOCALHOST", local.host())?;
    put_known(alloc, variables, "TCPREMOTEHOST", peer.host())?;
    put_known(alloc, variables, "TCPREMOTEINFO", peer.info())
}

fn put_address(
    alloc: Global,
    variables: &mut Environment,
    name: &str,
    ip: [u8; 4],
) -> Result<(), AllocError>
    ensures { OnOk result (variables.new ≡ with_value variables.old name.now (ipv4_text ip)) }
{
    let text = Ipv4Addr::from_octets(ip).to_string(alloc)?;
    variables.put(alloc, name, text.as_str())
}

fn put_port(
    alloc: Global,
    variables: &mut Environment,
    name: &str,
    port: u16,
) -> Result<(), AllocError>
    ensures { OnOk result (variables.new ≡ with_value variables.old name.now (decimal port)) }
{
    variables.put(alloc, name, Buffer::new().format(port))
}

/// Puts a variable, if its value is known.
fn put_known(
    alloc: Global,
    variables: &mut Environment,
    name: &str,
    value: Option<&str>,
) -> Result<(), AllocError>
    ensures { OnOk result (variables.new ≡ with_values variables.old (where_known name.now (given value.entry))) }
{
    match value {
        Some(value) => variables.put(alloc, name, value),
        None => Ok(()),
    }
}

fn put_settings(
    alloc: Global,
    variables: &mut Environment,
    settings: &[Setting],
) -> Result<(), AllocError>
    ensures { OnOk result (variables.new ≡ with_values variables.old (map assigned settings.now)) }
{
    for setting in settings {
        variables.put(alloc, setting.name(), setting.value())?;
    }
    Ok(())
}
