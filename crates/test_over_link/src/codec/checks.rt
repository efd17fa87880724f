//! What the tests share: a poll, and answers as letters.
use crate::checks::are_equal;
use futures::Stream;
use futures::task::Poll;
use futures::test::MockTask;
use link::Answer;
use link_codec::DecodeError;

/// What a poll of a framed reader answers.
pub(crate) type Polled = Poll<Option<Result<Answer<String>, DecodeError>>>;

/// One poll.
pub(crate) fn next<S: Stream>(task: &MockTask, items: &mut S) -> Poll<Option<S::Item>>
    requires { S.can_poll items.old }
{
    task.enter(|cx| items.poll_next(cx))
}

/// A value is its first letter, `Damaged` ?, `TooLong` >, `Cut` -; out of memory !, a fault of the reader #; the end . and waiting _.
pub(crate) fn letter(polled: Polled) -> u8 {
    match polled {
        Poll::Ready(Some(Ok(answer))) => of_answer(answer),
        Poll::Ready(Some(Err(DecodeError::NoMemory))) => b'!',
        Poll::Ready(Some(Err(DecodeError::Io(_)))) => b'#',
        Poll::Ready(None) => b'.',
        Poll::Pending => b'_',
    }
}

fn of_answer(answer: Answer<String>) -> u8 {
    match answer {
        Answer::Value(text) => match text.as_bytes() {
            [letter, ..] => *letter,
            [] => b' ',
        },
        Answer::Damaged => b'?',
        Answer::TooLong => b'>',
        Answer::Cut => b'-',
    }
}

/// The first sixteen bytes of those that were given to it.
#[derive(Drop)]
pub(crate) struct Front {
    bytes: [u8; 16],
    /// How many they are.
    pub count: usize,
}

impl Front {
    /// None yet.
    pub fn new() -> Front {
        Front {
            bytes: [0; 16],
            count: 0,
        }
    }

    /// One more; past sixteen they are dropped.
    pub fn put(&mut self, byte: u8) {
        let at = self.count;
        if let Some(place) = self.bytes.get_mut(at) {
            *place = byte;
            self.count = at.saturating_add(1);
        }
    }

    /// Whether they are these.
    pub fn is(&self, wanted: &[u8]) -> bool {
        match self.bytes.get(..self.count) {
            Some(front) => are_equal(front, wanted),
            None => false,
        }
    }
}

/// What some polls answered.
#[derive(Drop)]
pub(crate) struct Heard {
    /// Their letters, but for those that waited.
    pub letters: Front,
    /// How many polls waited.
    pub waits: usize,
    /// How many ends were received.
    pub ends: usize,
}

impl Heard {
    /// None yet.
    pub fn new() -> Heard {
        Heard {
            letters: Front::new(),
            waits: 0,
            ends: 0,
        }
    }

    /// One more.
    pub fn push(&mut self, letter: u8) {
        match letter {
            b'_' => {
                self.waits = self.waits.saturating_add(1);
                return;
            }
            b'.' => self.ends = self.ends.saturating_add(1),
            _ => {}
        }
        self.letters.put(letter);
    }
}
