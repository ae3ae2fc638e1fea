//! The words of the command line.

use std::env::Env;
use std::{env, io};
use tmem_script::WordsError;

/// The words of the command line, the program's name first.
pub(crate) fn words_of(rt: &(impl Env + AllocGlobal)) -> Result<Vec<String>, WordsError> {
    match env::args(rt) {
        Ok(words) => words.collect(rt.alloc()).map_err(|_| WordsError::Memory),
        Err(error) if error.kind() == io::ErrorKind::OutOfMemory => Err(WordsError::Memory),
        Err(_) => Err(WordsError::NotText),
    }
}
