//! The words of `tcpserver`: options, host, port, program. They are read into plain values, and nothing is opened or
//! looked up.
//!
//! `tcpserver` uses `read_server_words`, which gives what the words ask for or their first fault. `laws::first_fault`
//! says the same as a list of checks of which the first that fails counts. Option words are read by `read_words`, whose
//! contract is a relation with a rule for each case; by `option_laws::by_the_rules` each list of words has exactly one
//! reading. What the server does with these values is said in `ucspi`.
#![tactic(auto)]

pub mod fault;
pub mod laws;
pub mod letter;
pub mod level;
pub mod mode;
pub mod number;
pub mod operands;
pub mod option_fault;
pub mod option_laws;
pub mod option_words;
pub mod options;
pub mod server_options;
pub mod words;
pub mod wrapping;

pub use fault::ServerWordsFault;
pub use letter::Meaning;
pub use level::Level;
pub use mode::Mode;
pub use number::number_in;
pub use operands::{Operands, address_of, port_of};
pub use option_fault::WordFault;
pub use option_words::read_words;
pub use options::{OptionGiven, Options};
pub use server_options::{
    ConnectionLimits, HEARD_LETTERS, NUMBERS_HINT, OPTIONS, TCPSERVER_LETTERS,
};
pub use words::{ServerWords, read_server_words};
pub use wrapping::{LineWrapperName, Wrapping};
