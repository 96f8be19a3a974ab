// The static library that a host links (include/consent.h): each export calls the function of the same name in the
// crate consent, under the same clauses. Kept: twins of consent's six, since C calls them by these names.
#![tactic(auto)]

ghost use Rattle.std.specs.Prelude.{◌≡◌};
ghost use Rattle.replies.specs.Which.{reply_kind};
ghost use Rattle.lent.specs.Words.{book_long};
ghost use Rattle.meaning.specs.Reply.{permits};
ghost use Rattle.promise.specs.Lent.{question_on, open_on};
ghost use Rattle.answer.specs.Answer.{answer_on, Answers, room_for};
ghost use Rattle.consent.specs.Numbered.{OpensAs};

// The length of a lent book, in words.
#[unsafe(no_mangle)]
pub extern "C" fn consent_book_words() -> usize
    ensures { result ≡ book_long }
{
    consent::consent_book_words()
}

// The fresh book of one screen of a house, or the refusal's number.
#[unsafe(no_mangle)]
pub extern "C" fn consent_open(book: &mut [u64], screen: u64, screens: u64) -> u64
    ensures { OpensAs (open_on book.old screen screens) result book.new }
{
    consent::consent_open(book, screen, screens)
}

// The reply to one whole message of kind 1, 3, 4 or 12, and how long it is; 0 where the lent reply is too short for it.
#[unsafe(no_mangle)]
pub extern "C" fn consent_answer(book: &mut [u64], message: &[u8], reply: &mut [u8]) -> usize
    ensures { Answers (answer_on book.old message.now reply.old) result
        book.new reply.new }
{
    consent::consent_answer(book, message, reply)
}

// Whether the car may do what a question asks about.
#[unsafe(no_mangle)]
pub extern "C" fn consent_permission(book: &[u64], message: &[u8]) -> bool
    ensures { result ≡ permits (question_on book.now message.now).reply }
{
    consent::consent_permission(book, message)
}

// How long the reply to a request is at most, by its byte of kind.
#[unsafe(no_mangle)]
pub extern "C" fn consent_reply_room(message: &[u8]) -> usize
    ensures { result ≡ room_for message.now }
{
    consent::consent_reply_room(message)
}

// The kind of the reply that some bytes are, 5 to 10; 0 where they are none that keeps its field rules.
#[unsafe(no_mangle)]
pub extern "C" fn consent_reply_kind(reply: &[u8]) -> u8
    ensures { result ≡ reply_kind reply.now }
{
    consent::consent_reply_kind(reply)
}
