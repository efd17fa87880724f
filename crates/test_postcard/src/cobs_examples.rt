//! `cobs`: the examples of its calls.
use crate::checks::{are_equal, check, decodes, fails, gives, goes_on, takes};
use cobs::*;

#[test]
fn encoded_at_once(rt: HostRuntime) {
    check(&rt, max_encoding_length(254) == 255);
    check(&rt, max_encoding_length(255) == 257);
    check(&rt, max_encoding_overhead(0) == 1);
    check(&rt, encoded_length(&[10, 11, 0, 12]) == 5);
    check(&rt, before_sentinel(&[3, 10, 11, 0, 12], 0) == 3);
    let mut small = [0u8; 4];
    let refused = try_encode(&[10, 11, 0, 12], &mut small);
    check(&rt, refused == Err(DestBufTooSmallError));
    let mut buffer = [0u8, 10, 11, 0, 12];
    check(&rt, encode_in_place(&mut buffer, 4, 0) == 5);
    check(&rt, are_equal(&buffer, &[3, 10, 11, 2, 12]));
}

#[test]
fn encoded_in_chunks(rt: HostRuntime) {
    let mut buffer = [0u8; 5];
    let mut encoder = CobsEncoder::new(&mut buffer);
    check(&rt, encoder.push(&[10, 11]).is_ok());
    check(&rt, encoder.push(&[0, 12]).is_ok());
    check(&rt, encoder.finalize() == 5);
    check(&rt, are_equal(&buffer, &[3, 10, 11, 2, 12]));
}

#[test]
fn encoded_up_to_a_front(rt: HostRuntime) {
    let mut buffer = [0u8; 5];
    let mut front = FrameFront::begin(&mut buffer);
    check(&rt, front.push(&mut buffer, &[10, 11]).is_ok());
    check(&rt, front.length() == 3);
    check(&rt, are_equal(&buffer[..3], &[3, 10, 11]));
}

#[test]
fn byte_by_byte(rt: HostRuntime) {
    let mut state = EncoderState::default();
    check(
        &rt,
        state.can_push() && state.push(10) == PushResult::AddSingle(10),
    );
    check(&rt, state.finalize() == (0, 2));
    let mut state = DecoderState::Idle;
    check(&rt, state.feed(2) == Ok(DecodeResult::DataStart));
    check(&rt, state.feed(10) == Ok(DecodeResult::DataContinue(10)));
    check(&rt, state.feed(0) == Ok(DecodeResult::DataComplete));
}

#[test]
fn decoded_at_once(rt: HostRuntime) {
    let mut line = [3u8, 10, 11, 2, 12, 0, 7];
    check(&rt, decodes(decode_in_place_report(&mut line), 5, 4));
    check(&rt, are_equal(&line[..4], &[10, 11, 0, 12]));
    let mut cut = [3u8, 10];
    let refused = DecodeError::InvalidFrame { decoded_bytes: 1 };
    check(&rt, fails(decode_in_place(&mut cut), refused));
    let refused = DecodeVecError::Decode(DecodeError::EmptyFrame);
    check(&rt, fails(decode_vec(rt.alloc(), &[0, 0]), refused));
    let mut message = [0u8; 4];
    let decoded: Result<DecodeReport, DecodeError> = decode(&[3, 10, 11, 2, 12, 0], &mut message);
    let is_whole = match decoded {
        Ok(report) => report.parsed_size() == 6 && report.frame_size() == 4,
        Err(_) => false,
    };
    check(&rt, is_whole && are_equal(&message, &[10, 11, 0, 12]));
    let again: Result<DecodingResult, DecodeError> = decode(&[2, 7], &mut message);
    check(&rt, decodes(again, 2, 1) && message[0] == 7);
}

#[test]
fn decoded_in_chunks(rt: HostRuntime) {
    let mut buffer = [0u8; 4];
    let mut decoder = CobsDecoder::new(&mut buffer);
    check(&rt, goes_on(decoder.push(&[3, 10, 11, 2])));
    check(&rt, takes(decoder.push(&[12, 0, 7]), 2, 4));
    check(&rt, are_equal(decoder.dest(), &[10, 11, 0, 12]));
    let mut decoder = CobsDecoderHeapless::<4>::new();
    check(&rt, takes(decoder.push(&[3, 10, 11, 2, 12, 0]), 6, 4));
    let is_decoded = match CobsDecoderOwned::new(rt.alloc(), 4) {
        Ok(mut decoder) => takes(decoder.push(&[3, 10, 11, 2, 12, 0]), 6, 4),
        Err(_) => false,
    };
    check(&rt, is_decoded);
}

#[test]
fn decoded_and_moved(rt: HostRuntime) {
    let mut message = [0; 4];
    check(&rt, gives(decode_clear(&[2, 7], &mut message, 0), 1));
    check(&rt, message[0] == 7);
    let mut buffer = [7; 4];
    copy_over(&[10, 11], &mut buffer, 1, 10);
    check(&rt, are_equal(&buffer, &[7, 0, 1, 7]));
    let mut buffer = [7; 4];
    let count = copy_until_sentinel(&[3, 2, 10, 4], &mut buffer, 0, 10);
    check(&rt, count == 2);
    check(&rt, are_equal(&buffer, &[9, 8, 7, 7]));
}
