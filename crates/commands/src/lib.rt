//! What the program's commands do over a world of devices: record, replay, demonstrate, and print a
//! text. Each opens what its words name, gives it back, and answers how it ended.
#![tactic(auto)]

mod devices;
mod outcome;
mod printing;
mod quiet;
mod recording;
mod refusing;
mod replaying;

pub use outcome::Outcome;
pub use printing::{HELP, PrintFault, VERSION, print, quiet_outcome};
pub use quiet::demonstrate;
pub use recording::run;
pub use refusing::{header_outcome, image_outcome};
pub use replaying::replay;
