//! The receipts of callers.
ghost use Rattle.std.specs.Prelude.{◌≡◌, IfOk, IfSome};
ghost use Rattle.dir_calls.specs.declared.phase.Phase.TheVariants.{Fresh};
ghost use Rattle.server_events.specs.declared.event.Event.TheVariants.{Admitted, Decided, Stepped};
ghost use Rattle.server_yard.specs.Evidence.{made_event};

use dir_calls::Phase;
use rule_lookup::{Decision, Peer};
use rules_install::{Install, InstallFault};
use server_events::Event;
use server_yard::{Made, OutOfTurn};
use std::alloc::{AllocError, Global};
use whole_yard::Receipt;

/// The receipts of callers, and whether one of their calls did not succeed.
#[derive(Drop)]
pub(crate) struct Receipts {
    pub(crate) list: Vec<Receipt>,
    pub(crate) has_failed: bool,
}

impl Receipts {
    /// No receipts.
    pub(crate) fn new(alloc: Global) -> Receipts {
        Receipts {
            list: Vec::new(alloc),
            has_failed: false,
        }
    }

    /// Notes that a call did not succeed.
    pub(crate) fn fail(&mut self) {
        self.has_failed = true;
    }

    /// Adds those of another caller.
    pub(crate) fn append(&mut self, more: Receipts) {
        let Receipts {
            mut list,
            has_failed,
        } = more;
        let appended = self.list.append(&mut list);
        drop(list);
        self.has_failed |= has_failed | appended.is_err();
    }

    /// Keeps the receipt of an event.
    pub(crate) fn keep(&mut self, made: Made, event: Event)
        requires { made_event made ≡ event }
    {
        let kept = self.list.push(Receipt::of(made, event));
        self.has_failed |= kept.is_err();
        drop(kept);
    }

    /// Keeps the receipt of an event, which has to be made.
    pub(crate) fn keep_made(&mut self, answer: Result<Made, OutOfTurn>, event: Event)
        requires { IfOk answer (λ made. made_event made ≡ event) }
    {
        match answer {
            Ok(made) => self.keep(made, event),
            Err(refusal) => {
                drop(refusal);
                drop(event);
                self.fail();
            }
        }
    }

    /// Keeps the receipt of an admission.
    pub(crate) fn keep_admitted(&mut self, made: Made, serial: u64, peer: &Peer)
        requires { made_event made ≡ Admitted serial peer.now }
    {
        match peer.copy() {
            Ok(peer) => self.keep(made, Event::Admitted { serial, peer }),
            Err(_) => {
                drop(made);
                self.fail();
            }
        }
    }

    /// Keeps the receipt of a decision, which has to be made. It needs a copy of the decision.
    pub(crate) fn keep_decided(
        &mut self,
        answer: Result<Made, OutOfTurn>,
        serial: u64,
        copy: Result<Decision, AllocError>,
    )
        requires { IfOk copy (λ decision. IfOk answer (λ made. made_event made ≡ Decided serial decision)) }
    {
        match copy {
            Ok(decision) => self.keep_made(answer, Event::Decided { serial, decision }),
            Err(_) => {
                drop(answer);
                self.fail();
            }
        }
    }

    /// Keeps the receipt of an installation's first step, which has to be made. It answers the installation's number.
    pub(crate) fn keep_begun(
        &mut self,
        begun: Result<u64, (Install, InstallFault)>,
        made: Option<Made>,
    ) -> Option<u64>
        requires { IfOk begun (λ _. IfSome made (λ made. made_event made ≡ Stepped Fresh)) }
    {
        match begun {
            Ok(number) => {
                self.keep_step(made, Phase::Fresh);
                Some(number)
            }
            Err((install, _)) => {
                drop(install);
                drop(made);
                self.fail();
                None
            }
        }
    }

    /// Keeps the receipt of a further step, which has to be made. It answers whether the installation goes on: it is
    /// not done, and no other one has taken its place.
    pub(crate) fn keep_stepped(
        &mut self,
        stepped: Result<Phase, InstallFault>,
        made: Option<Made>,
    ) -> bool
        requires { IfOk stepped (λ phase. IfSome made (λ made. made_event made ≡ Stepped phase)) }
    {
        match stepped {
            Ok(phase) => {
                self.keep_step(made, phase);
                phase != Phase::Done
            }
            Err(_) => {
                drop(made);
                false
            }
        }
    }

    // Keeps the receipt of a step.
    fn keep_step(&mut self, made: Option<Made>, phase: Phase)
        requires { IfSome made (λ made. made_event made ≡ Stepped phase) }
    {
        match made {
            Some(made) => self.keep(made, Event::Stepped { phase }),
            None => self.fail(),
        }
    }
}
