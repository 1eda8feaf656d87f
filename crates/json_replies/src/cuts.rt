//! A text cut at one of its bytes.

ghost use Rattle.std.specs.Prelude.{◌≡◌, drop};
ghost use Rattle.json_replies.specs.Cuts.{before, cuts_at as does_cut_at, from_on, others_behind as left_behind};

fn cuts_at(byte: u8, others: usize, here: u8) -> bool
    ensures { result ≡ does_cut_at byte others here }
{
    here == byte && others == 0
}

fn others_behind(byte: u8, others: usize, here: u8) -> usize
    ensures { result ≡ left_behind byte others here }
{
    if here == byte {
        others.saturating_sub(1)
    } else {
        others
    }
}

/// What stands before such a byte, so many others passed over, and from it on.
pub(crate) fn cut(text: &[u8], byte: u8, others: usize) -> (&[u8], &[u8])
    ensures before { result.0.now ≡ before byte others text.now }
    ensures from { result.1.now ≡ from_on byte others text.now }
{
    let mut left = others;
    for (index, here) in text.iter().enumerate() {
        if cuts_at(byte, left, *here) {
            return text.split_at(index);
        }
        left = others_behind(byte, left, *here);
    }
    (text, &[])
}

/// A text without its first byte.
pub(crate) fn without_first(text: &[u8]) -> &[u8]
    ensures { result.now ≡ drop 1 text.now }
{
    match text {
        [] => &[],
        [_, rest @ ..] => rest,
    }
}
