// A question put to a sound book: refused, told to wait, or answered. The book doesn't change.
#![tactic(auto)]

ghost use Rattle.std.specs.Prelude.{◌≡◌, ◌-◌, ◌<◌, T, ltb};
ghost use Rattle.limits.specs.Limits.{prompt_count};
ghost use Rattle.stamp.specs.Parts.{list_of};
ghost use Rattle.stamp.specs.Stamp.{part, stamp_fits};
ghost use Rattle.meaning.specs.Book.{known};
ghost use Rattle.meaning.specs.Step.{ask};
ghost use Rattle.lent.specs.Held.{Held};
ghost use Rattle.lent.specs.Words.{book_of, lawful};
ghost use Rattle.promise.specs.Spoken.{spoken};

use lent::{known_of, screen_of, standing_of, value_of};
use promise::Reply;
use stamp::{Parts, at_most, lacking, list_of, part_at, part_of};
use tally::verdict_of;
use wire::{Question, Refusal, Verdict};

// Whether the label's part i exceeds the known stamp's.
pub fn label_unknown(b: &[u64], label: Parts) -> bool
    requires held { Held b.now }
    requires b_bound { (book_of b.now).me < (book_of b.now).screens }
    ensures { result ≡ ltb (part (known (book_of b.now)) (book_of b.now).me)
        (part (list_of label) (book_of b.now).me) }
{
    let i = screen_of(b);
    let s = known_of(b);
    part_at(&s, i) < part_of(label, i)
}

// A question on a prompt, at a label.
pub fn ask_book(b: &[u64], question: Question) -> Reply
    requires sound { T (lawful b.now) }
    requires prompt_fits { question.prompt < prompt_count }
    requires label_fits { T (stamp_fits (book_of b.now).screens (list_of question.label)) }
    ensures { spoken result ≡ (ask (book_of b.now) question.prompt (list_of question.label)).reply }
{
    if label_unknown(b, question.label) {
        return Reply::from(Refusal::UnknownLabel);
    }
    let value = value_of(b);
    let asked = list_of(question.label);
    let covered = list_of(value);
    if !at_most(&asked, &covered) {
        return Reply::Wait(lacking(&asked, &covered));
    }
    let s = standing_of(b, question.prompt);
    Reply::Verdict(Verdict {
        verdict: verdict_of(s),
        showing: s.showing,
        accepts: s.accepts,
        declines: s.declines,
        value,
    })
}
