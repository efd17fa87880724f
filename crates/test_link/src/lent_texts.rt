//! Texts that are read where they lie in the receiver, so that no memory is asked for.
use crate::checks::check;
use link::{Answer, NoMemory, Pushed, Receiver};
use std::alloc::Global;

// The text "hi", a text of five bytes of which none is there, and "hi" again.
const LINE: [u8; 13] = [4, 2, 104, 105, 0, 2, 5, 0, 4, 2, 104, 105, 0];

/// What was received.
#[derive(Drop)]
struct Tally {
    texts: usize,
    bytes: usize,
    lost: usize,
}

impl Tally {
    fn add(&mut self, text: &str) {
        self.texts = self.texts.saturating_add(1);
        self.bytes = self.bytes.saturating_add(text.len());
    }
}

fn hear(alloc: Global, receiver: &mut Receiver<64>, piece: &[u8], tally: &mut Tally) {
    let mut rest = piece;
    // each push uses a byte at least, and one of no bytes answers nothing
    for _ in 0..piece.len() {
        let Pushed { used, answer, .. } = receiver.push_ref::<&str>(alloc, rest);
        match answer {
            // the text lies in the receiver until the next push
            Ok(Some(Answer::Value(text))) => tally.add(text),
            Ok(None) => {}
            Ok(Some(_)) | Err(NoMemory) => tally.lost = tally.lost.saturating_add(1),
        }
        rest = &rest[used..];
    }
}

#[test]
fn texts_where_they_lie(rt: HostRuntime) {
    let mut receiver = Receiver::<64>::new();
    let mut tally = Tally {
        texts: 0,
        bytes: 0,
        lost: 0,
    };
    hear(rt.alloc(), &mut receiver, &LINE, &mut tally);
    for byte in &LINE {
        hear(rt.alloc(), &mut receiver, &[*byte], &mut tally);
    }
    check(&rt, tally.texts == 4 && tally.bytes == 8 && tally.lost == 2);
}
