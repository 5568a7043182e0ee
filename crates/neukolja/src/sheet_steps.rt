// The house sheet as C goes through it: its state is five words.
ghost use Rattle.std.specs.Prelude.{[], ◌≡◌, length};
ghost use Rattle.answer.specs.Matches.{buffers};
ghost use Rattle.sheet.specs.Sheet.{sheet_open_answer, sheet_open_progress, sheet_next_answer, sheet_next_progress, sheet_next_counts};
ghost use Rattle.neukolja.specs.Words.{words_with, progress_in, progress_words};

use crate::write_words;
use sheet::Progress;

fn progress_of(words: &[u64; 5]) -> Progress
    ensures { result ≡ progress_in words.now }
{
    Progress {
        at: words[0],
        left: words[1],
        charged: words[2],
        budget: words[3],
        file: words[4],
    }
}

fn write_progress(p: Progress, words: &mut [u64; 5])
    ensures { words.new ≡ progress_words p }
{
    *words = [p.at, p.left, p.charged, p.budget, p.file];
}

#[unsafe(no_mangle)]
pub extern "C" fn neukolja_sheet_open(
    registry: &[u8],
    sheet: &[u8],
    budget: u32,
    file: u16,
    message: &mut [u8],
    state: &mut [u64; 5],
    answer: &mut [u64; 5],
)
    ensures { (words_with answer.new [] [] message.new ≡ sheet_open_answer (length message.old) registry.now sheet.now) × (progress_in state.new ≡ sheet_open_progress (length message.old) registry.now sheet.now budget file) }
{
    let opened = sheet::open(registry, sheet, budget, file, message);
    write_progress(opened.progress, state);
    write_words(opened.answer, answer);
}

#[unsafe(no_mangle)]
pub extern "C" fn neukolja_sheet_next<'a>(
    registry: &'a [u8],
    sheet: &'a [u8],
    state: &mut [u64; 5],
    res: &mut [u8],
    work: &mut [u8],
    message: &mut [u8],
    counts: &mut [u32; 255],
    answer: &mut [u64; 5],
)
    ensures { (words_with answer.new res.new work.new message.new ≡ sheet_next_answer (buffers (length res.old) (length work.old) (length message.old)) registry.now sheet.now (progress_in state.old)) × (progress_in state.new ≡ sheet_next_progress (buffers (length res.old) (length work.old) (length message.old)) registry.now sheet.now (progress_in state.old)) × (counts.new ≡ sheet_next_counts (buffers (length res.old) (length work.old) (length message.old)) registry.now sheet.now (progress_in state.old) counts.old) }
{
    let p = progress_of(state);
    let step = sheet::next(registry, sheet, p, res, work, message, counts);
    write_progress(step.progress, state);
    write_words(step.answer, answer);
}
