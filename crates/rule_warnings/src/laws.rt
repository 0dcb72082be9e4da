//! Laws over the definitions alone.
ghost use Rattle.std.specs.Prelude.{◌≡◌, ℕ, List, true, false, Contains};
ghost use Rattle.rule_lookup.specs.Forms.{forms_of};
ghost use Rattle.rule_lookup.specs.Peers.{Client};
ghost use Rattle.rule_warnings.specs.Clients.{is_form, IsPeer, IsSomePeers};

/// Exactly those addresses are told to be a form which are a lookup form of some peer.
pub fn exact_forms()
    ensures some { (address : List ℕ) → is_form address ≡ true → IsSomePeers address }
    ensures none { (address : List ℕ) (peer : Client) → is_form address ≡ false → IsPeer peer
        → Contains (forms_of peer) address → ⊥ }
{}
