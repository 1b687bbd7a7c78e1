//! What the tests of more than one command make.

use sk_base::memory::{CallKind, FailAt};
use std::alloc::{AllocError, Global};

/// The words as the program gets them.
pub fn words_of(alloc: Global, texts: &[&str]) -> Result<Vec<String>, AllocError> {
    let mut words = Vec::new(alloc);
    for text in texts {
        words.push(String::from_str(alloc, text)?)?;
    }
    Ok(words)
}

/// One call that is to fail: that of this number among those of its kind.
pub fn fails_of(alloc: Global, call: CallKind, number: u64) -> Result<Vec<FailAt>, AllocError> {
    let mut fails = Vec::new(alloc);
    fails.push(FailAt {
        call,
        link: 0,
        number,
    })?;
    Ok(fails)
}
