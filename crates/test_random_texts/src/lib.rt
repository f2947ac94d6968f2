//! Programs at random, as texts that the grammar derives, made from a seed. No text has an early error; names and literals are odd ones.
#![tactic(auto)]

mod marks;
mod planner;
mod random;
mod rows;
mod words;

use marks::{AWAIT_NAME, FEATURE, IN_MODULE, SLOPPY, YIELD_NAME};
use planner::Planner;
pub use random::Random;
use rows::{Hole, Sort, TOP_ITEM, TOP_SCRIPT};
use std::alloc::{AllocError, Global};
use words::HASHBANGS;
pub use words::{STRING_PARTS, SURROGATES};

/// The text of a program, and as what it is read.
#[derive(Drop)]
pub struct Grown {
    pub text: String,
    /// Whether it is a module, and no script.
    pub module: bool,
    /// Whether `using` and `accessor` may stand in it.
    pub features: bool,
}

/// The program of a seed, which is made in at most so many steps, from 4.
///
/// # Errors
///
/// Want of memory.
pub fn grow(alloc: Global, seed: u64, most: usize) -> Result<Grown, AllocError> {
    let mut random = Random::new(seed);
    let module = random.one_in(2);
    let strict = module || random.one_in(4);
    let features = random.one_in(3);
    let steps = 4 + random.below(most.clamp(1, 1000));
    let of_goal = if module { AWAIT_NAME } else { IN_MODULE };
    let of_code = if strict { SLOPPY | YIELD_NAME } else { 0 };
    let of_words = if features { 0 } else { FEATURE };
    let mut planner = Planner::new(alloc, random, of_goal | of_code | of_words);
    'steps: for _ in 0..steps {
        planner.grow()?;
    }
    let items = if module { steps / 4 } else { 0 };
    'items: for _ in 0..items {
        planner.grow_one(Sort::Item)?;
    }
    let hole = Hole {
        least: steps / 8 + 1,
        most: steps / 3 + 1,
        ..if module { TOP_ITEM } else { TOP_SCRIPT }
    };
    let mut text = String::new(alloc);
    if random.one_in(16) {
        text.push_str("#!")?;
        text.push_str(random.pick(&HASHBANGS, ""))?;
        text.push_str("\n")?;
    }
    if strict && !module {
        text.push_str("'use strict' ; ")?;
    }
    let rest = planner.finish(&hole)?;
    text.push_str(rest.as_str())?;
    Ok(Grown {
        text,
        module,
        features,
    })
}
