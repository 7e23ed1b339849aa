//! The tokens of a line of JSON, read in one pass where they stand.
//!
//! It reads objects as programs write them: texts without escapes, whole numbers of up to 18 digits, and spaces only
//! before a token. Of all else it says nothing, so a caller reads what it gives up in another way. Reading takes no
//! memory; a key takes what its bytes take.
//!
//! - `bytes`: what stands at the start of some bytes
//! - `key`: a key that is looked for
//! - `tokens`: the tokens
#![tactic(auto)]

mod bytes;
mod key;
mod tokens;

pub use key::Key;
pub use tokens::Tokens;
