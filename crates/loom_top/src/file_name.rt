//! The name of a file.
ghost use Rattle.std.specs.Prelude.{◌≡◌};
ghost use Rattle.loom_law.specs.Judgement.{file_name};

/// The name of the file that a word names: what stands behind the last `/`.
pub(crate) fn file_name(word: &[u8]) -> &[u8]
    ensures { result.now ≡ file_name word.now }
{
    let mut start = 0;
    'bytes: for i in 0..word.len() {
        if word[i] == b'/' {
            start = i + 1;
        }
    }
    &word[start..]
}
