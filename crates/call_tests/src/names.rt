//! Names: which texts are names, and what is made of them.

use crate::table::expect;
use pair_structure::{Name, is_name};
use std::alloc::Global;
use std::test::Fail;

const NAMES: &str = "a = a true
a_1 = a_1 true
Z9_________yz_16 = Z9_________yz_16 true
Z9_________yz_167 = not a letter with up to 15 letters, digits and underscores
 = not a letter with up to 15 letters, digits and underscores
1a = not a letter with up to 15 letters, digits and underscores
_a = not a letter with up to 15 letters, digits and underscores
a-b = not a letter with up to 15 letters, digits and underscores
\u{e4} = not a letter with up to 15 letters, digits and underscores";

/// The copy of the name that the text is, and whether it is spelled alike; else why there is no name.
fn name_told(alloc: Global, text: &str) -> Result<String, Fail> {
    match Name::make(alloc, text) {
        Ok(name) => {
            let copy = name.copy(alloc)?;
            let same = copy.is_same(&name) && is_name(text.as_bytes());
            Ok(format!(in alloc; "{} {same}", copy.as_str())?)
        }
        Err(fault) => Ok(format!(in alloc; "{fault}")?),
    }
}

#[test]
fn tells_names_from_other_texts(rt: HostRuntime) -> Result<(), Fail> {
    expect(&rt, rt.alloc(), NAMES, name_told)
}
