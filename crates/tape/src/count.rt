// Codes counted by a test.
ghost use Rattle.std.specs.Prelude.{◌≤◌, length};
ghost use Rattle.tape.specs.Flat.{Passing};

// How many codes pass. They are a layout's, so that a short number counts them, and many are tested at once.
#[tactic(auto, unfolding(crate::specs::Flat::Passing, format::specs::Limits::weigh))]
pub fn count<F: Fn(u8) -> bool>(codes: &[u8], passes: F) -> usize
    requires callable { F.IsAlwaysCallable passes }
    requires few { length codes.now ≤ 1024 }
    ensures { Passing codes.now (F.post passes) result }
{
    let mut n: u16 = 0;
    for &code in codes {
        n += u16::from(passes(code));
    }
    usize::from(n)
}
