//! Completions of the program's words, made from its commands, a shell each.
mod bash;
mod fish;
mod zsh;

use crate::outline::whole;
use amo_settings::Shell;
use std::alloc::{AllocError, Global};

/// The script that this shell reads.
pub fn script(alloc: Global, shell: Shell) -> Result<String, AllocError> {
    let whole = whole(alloc)?;
    match shell {
        Shell::Bash => bash::script(alloc, &whole),
        Shell::Zsh => zsh::script(alloc, &whole),
        Shell::Fish => fish::script(alloc, &whole),
    }
}
