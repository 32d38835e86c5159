//! A processor as the shared parts see it.
ghost use Rattle.std.specs.Prelude.{◌≡◌};

use crate::processor::Processor;
use qpu_word::{Book, FaultKind, Fields, Ins, Outs, Port, Sent, Word};

impl Port for Processor {
    ghost state = { λ p. p };

    fn book(&self) -> Book {
        self.book_now()
    }

    #[tactic(auto, using(qpu_word::proofs::ProfileLemmas::fit_of_fields))]
    fn outs(&self, word: Word, ins: &Ins) -> Outs {
        let f = word.fields();
        self.sent(&f, ins).outs(&f)
    }

    #[tactic(auto, using(qpu_word::proofs::ProfileLemmas::fit_of_fields))]
    fn accept(&mut self, word: Word, ins: &Ins, book: &Book) {
        let f = word.fields();
        let sent = self.sent(&f, ins);
        self.finish(&f, ins, &sent, *book);
    }

    fn sends(&self, f: &Fields, ins: &Ins) -> Sent {
        self.sent(f, ins)
    }

    fn accept_sent(&mut self, f: &Fields, ins: &Ins, sent: &Sent, book: &Book) {
        self.finish(f, ins, sent, *book);
    }

    fn fail(&mut self, kind: FaultKind) {
        self.fault(kind);
    }
}
