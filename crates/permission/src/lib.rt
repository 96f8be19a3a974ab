// Permission, the rule that the car's functions use. It stands above the book and sees only what the book promises.
#![tactic(auto)]

ghost use Rattle.std.specs.Prelude.{◌≡◌};
ghost use Rattle.promise.specs.Lent.{question_on};
ghost use Rattle.meaning.specs.Reply.{permits};

use book::question;
use promise::Reply;
use tally::ACCEPTED;

// Yes exactly when the question is answered and the verdict is Accepted.
pub fn permission(b: &[u64], msg: &[u8]) -> bool
    ensures { result ≡ permits (question_on b.now msg.now).reply }
{
    let Reply::Verdict(answer) = question(b, msg) else {
        return false;
    };
    answer.verdict == ACCEPTED
}
