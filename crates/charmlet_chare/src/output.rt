use charmlet_model::{Sends, Words};

/// The output of one entry besides the object's state: its sends, in order, the reply, if a client
/// asked, and whether the object is destroyed.
#[derive(Debug, Drop)]
pub struct Output {
    pub sends: Sends,
    pub reply: Words,
    pub is_destroyed: bool,
}
