//! Values over any reader or writer of bytes, by the codecs of `tokio_util`: an encoder that writes what a sender of `link` writes, and
//! decoders with the results of a receiver of `link`. The items of the stream are `Answer`s.
//!
//! # Example
//! ```rust
//! let Ok(mut answers) = FramedRead::new(rt.alloc(), line, decoder) else {
//!     return heard;
//! };
//! ```
//! ```rust
//! let Ok(mut writer) = FramedWrite::new(rt.alloc(), Paper::new(pieces), Letters::new()) else {
//!     return sent;
//! };
//! ```
#![tactic(auto)]

mod array;
mod by_type;
mod caller;
mod codec;
mod decoder;
mod encoder;
mod error;
pub mod laws;
mod owned;

pub use array::{LinkDecoder, StrictLinkDecoder};
pub use by_type::ByType;
pub use caller::answers_at_once;
pub use codec::LinkCodec;
pub use decoder::AnswerDecoder;
pub use encoder::LinkEncoder;
pub use error::{DecodeError, EncodeError};
pub use owned::{OwnedLinkDecoder, StrictOwnedLinkDecoder};
