//! Frames that an accumulator gathers.
ghost use Rattle.std.specs.Mem.{FitsInMemory};
ghost use Rattle.postcard.specs.contracts.accumulator.CobsAccumulator.{the_row};

use postcard::accumulator::{CobsAccumulator, FeedResult};
use postcard::{Deserialize, DeserializeOwned};
use replay::{Findings, Shown, Trouble, Words, pieces_of};
use std::alloc::Global;
use std::collections::BTreeMap;

/// The call that feeds an accumulator.
#[derive(Clone, Copy, Drop)]
enum Call {
    Feed,
    FeedRef,
}

/// How an accumulator is fed.
#[derive(Clone, Copy, Drop)]
struct Feeding<'a> {
    alloc: Global,
    call: Call,
    /// The type's name.
    name: &'a str,
}

/// `N TYPE PIECE,PIECE,.. -> A|A|..`: what an accumulator of so many bytes returns by the documented loop.
pub(crate) fn replay_accumulate(
    alloc: Global,
    words: &mut Words<'_>,
    findings: &mut Findings,
) -> Result<(), Trouble> {
    let size = words.number()?;
    let name = words.next()?;
    let pieces = words.next()?;
    let wanted = words.answer()?;
    let pieces = pieces_of(alloc, pieces)?;
    compare_answers(alloc, size, name, &pieces, wanted, findings)
}

/// Compares the results by each call.
fn compare_answers(
    alloc: Global,
    size: usize,
    name: &str,
    pieces: &[Vec<u8>],
    wanted: &str,
    findings: &mut Findings,
) -> Result<(), Trouble> {
    let call = Call::Feed;
    let feeding = Feeding { alloc, call, name };
    findings.check("feed", feed_new(size, feeding, pieces), wanted)?;
    let call = Call::FeedRef;
    let feeding = Feeding { alloc, call, name };
    findings.check("feed_ref", feed_new(size, feeding, pieces), wanted)
}

/// The results of a new accumulator of so many bytes.
fn feed_new(size: usize, feeding: Feeding<'_>, pieces: &[Vec<u8>]) -> Result<String, Trouble> {
    match size {
        1 => feed_all::<1>(feeding, pieces),
        2 => feed_all::<2>(feeding, pieces),
        3 => feed_all::<3>(feeding, pieces),
        4 => feed_all::<4>(feeding, pieces),
        5 => feed_all::<5>(feeding, pieces),
        6 => feed_all::<6>(feeding, pieces),
        8 => feed_all::<8>(feeding, pieces),
        11 => feed_all::<11>(feeding, pieces),
        12 => feed_all::<12>(feeding, pieces),
        16 => feed_all::<16>(feeding, pieces),
        17 => feed_all::<17>(feeding, pieces),
        32 => feed_all::<32>(feeding, pieces),
        64 => feed_all::<64>(feeding, pieces),
        _ => Err(Trouble::Unreadable),
    }
}

/// The results of a new accumulator for the chunks.
fn feed_all<const N: usize>(feeding: Feeding<'_>, pieces: &[Vec<u8>]) -> Result<String, Trouble>
    requires { FitsInMemory (the_row N.row) }
{
    let mut text = String::new(feeding.alloc);
    feed_pieces(&mut CobsAccumulator::<N>::new(), feeding, pieces, &mut text)?;
    Ok(text)
}

/// Feeds the chunks, and appends the results.
fn feed_pieces<const N: usize>(
    accumulator: &mut CobsAccumulator<N>,
    feeding: Feeding<'_>,
    pieces: &[Vec<u8>],
    text: &mut String,
) -> Result<(), Trouble> {
    for piece in pieces {
        if !text.is_empty() {
            text.push('|')?;
        }
        feed_piece(accumulator, feeding, piece, text)?;
    }
    Ok(())
}

/// Feeds a chunk, and each rest again until it is empty or all was consumed. Each feed takes a byte at least.
fn feed_piece<const N: usize>(
    accumulator: &mut CobsAccumulator<N>,
    feeding: Feeding<'_>,
    piece: &[u8],
    text: &mut String,
) -> Result<(), Trouble> {
    let mut rest = piece;
    for turn in 0..=piece.len() {
        if turn > 0 {
            text.push(';')?;
        }
        let Some(left) = feed_named(accumulator, feeding, rest, text)? else {
            break;
        };
        rest = rest.get(rest.len().saturating_sub(left)..).unwrap_or(&[]);
        if rest.is_empty() {
            break;
        }
    }
    Ok(())
}

/// Feeds once for the type of the name.
// One arm a type, since `feed_ref` of any type can't be a bound, which would range over every lifetime.
fn feed_named<const N: usize>(
    accumulator: &mut CobsAccumulator<N>,
    feeding: Feeding<'_>,
    input: &[u8],
    text: &mut String,
) -> Result<Option<usize>, Trouble> {
    match feeding.name {
        "()" => feed::<(), N>(accumulator, feeding, input, text),
        "bool" => feed::<bool, N>(accumulator, feeding, input, text),
        "u32" => feed::<u32, N>(accumulator, feeding, input, text),
        "(u8,u8)" => feed::<(u8, u8), N>(accumulator, feeding, input, text),
        "Option<u16>" => feed::<Option<u16>, N>(accumulator, feeding, input, text),
        "[u8;10]" => feed::<[u8; 10], N>(accumulator, feeding, input, text),
        "String" => feed::<String, N>(accumulator, feeding, input, text),
        "Vec<u8>" => feed::<Vec<u8>, N>(accumulator, feeding, input, text),
        "BTreeMap<u8,u8>" => feed::<BTreeMap<u8, u8>, N>(accumulator, feeding, input, text),
        _ => Err(Trouble::Unreadable),
    }
}

/// Feeds once, shows the result, and returns how many bytes are left, if not all were consumed.
fn feed<'a, T: Deserialize<&'a [u8]> + DeserializeOwned + Shown, const N: usize>(
    accumulator: &'a mut CobsAccumulator<N>,
    feeding: Feeding<'_>,
    input: &[u8],
    text: &mut String,
) -> Result<Option<usize>, Trouble> {
    match feeding.call {
        Call::Feed => show(accumulator.feed::<T>(feeding.alloc, input), text),
        Call::FeedRef => show(accumulator.feed_ref::<T>(feeding.alloc, input), text),
    }
}

/// Shows the result of a feed.
fn show<T: Shown + Drop>(
    answer: FeedResult<'_, T>,
    text: &mut String,
) -> Result<Option<usize>, Trouble> {
    match answer {
        FeedResult::Consumed => {
            text.push('C')?;
            Ok(None)
        }
        FeedResult::OverFull(rest) => show_count('O', rest.len(), text),
        FeedResult::DeserError(rest) => show_count('D', rest.len(), text),
        FeedResult::Success { value, remaining } => {
            let left = show_count('S', remaining.len(), text)?;
            text.push('=')?;
            value.show(text)?;
            Ok(left)
        }
    }
}

/// Shows what a result is, and how many bytes are left.
fn show_count(answer: char, left: usize, text: &mut String) -> Result<Option<usize>, Trouble> {
    write!(text, "{answer}{left}")?;
    Ok(Some(left))
}
