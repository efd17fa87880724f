//! Decoding: byte by byte by a table, in streams into a buffer, and whole input.

mod decoder;
mod heapless;
mod in_place;
mod owned;
mod progress;
mod report;
mod state;
mod whole;
mod window;

pub use decoder::CobsDecoder;
pub use heapless::CobsDecoderHeapless;
pub use in_place::{
    decode_clear_in_place, decode_in_place, decode_in_place_report,
    decode_in_place_report_with_sentinel, decode_in_place_with_sentinel, decode_vec,
    decode_vec_with_sentinel,
};
pub use owned::CobsDecoderOwned;
pub use report::{DecodeError, DecodeReport, DecodeVecError, DecodingResult};
pub use state::{DecodeResult, DecoderState};
pub use whole::{decode, decode_clear, decode_with_sentinel};
