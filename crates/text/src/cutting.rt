// Lists of bytes: cut at the first of a byte.
ghost use Rattle.text.specs.inner.Lists.{SplitOnce};

// What is in front of the first of a byte, and what is after it.
pub fn split_once(text: &[u8], byte: u8) -> Option<(&[u8], &[u8])>
    ensures { SplitOnce byte text.now result }
{
    for k in 0..text.len() {
        if text[k] == byte {
            return Some((&text[..k], &text[k + 1..]));
        }
    }
    None
}
