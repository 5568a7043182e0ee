// The preview (document 02, point 5): what an expansion of the same tapes would return, and how large its result would be. It has no
// result buffer and takes no counts: the expansion is lent a buffer of its own, and no counts to raise.
#![tactic(auto)]

ghost use Rattle.std.specs.Prelude.{◌≡◌, length};
ghost use Rattle.definition.specs.Answers.{expand_answer};
ghost use Rattle.answer.specs.Matches.{buffers};
ghost use Rattle.definition.specs.Preview.{preview_answer, sizes_only};
ghost use Rattle.preview.specs.Matches.{preview_with};

use answer::{Answer, RESULT_SIZE};
use buffer::read_size;
use expansion::expand_lent;

// The expansion's answer, and the result's entries and bytes of text, both 0 on a refusal.
#[derive(Clone, Copy, Debug, PartialEq, Eq)]
pub struct Previewed {
    pub answer: Answer,
    pub entries: u32,
    pub text: u32,
}

// The sizes that a result begins with; a refusal leaves zeros there.
#[tactic(auto, unfolding(definition::specs::Preview::sizes_only))]
fn preview_in<'a>(
    registry: &'a [u8],
    condition: &'a [u8],
    limit: u32,
    file: u16,
    res: &mut [u8],
    work: &mut [u8],
    message: &mut [u8],
) -> Previewed
    ensures { preview_with result work.new message.new ≡ sizes_only (expand_answer (buffers (length res.old) (length work.old) (length message.old)) limit file registry.now condition.now) }
{
    Previewed {
        answer: expand_lent(
            registry,
            condition,
            limit,
            file,
            res,
            work,
            message,
            &mut [],
        ),
        entries: read_size(res, 0),
        text: read_size(res, 4),
    }
}

// The operation on a registry and a condition: the seven numbers and every byte of the two buffers are what the definition says, for
// every input and all buffers. Its parameters, the limit and the file number among them, are those of `include/neukolja.h`.
#[tactic(auto, using(definition::proofs::Preview::previews))]
pub fn preview<'a>(
    registry: &'a [u8],
    condition: &'a [u8],
    limit: u32,
    file: u16,
    work: &mut [u8],
    message: &mut [u8],
) -> Previewed
    ensures { preview_with result work.new message.new ≡ preview_answer (length work.old) (length message.old) limit file registry.now condition.now }
{
    let mut result = [0u8; RESULT_SIZE];
    preview_in(registry, condition, limit, file, &mut result, work, message)
}
