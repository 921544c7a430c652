use crate::fault::ScriptFault;
use script_text::read_suite;
use std::alloc::Global;

/// Suites split by commas, or `-` for none.
pub fn read_suites(heap: Global, text: &str) -> Result<Vec<u16>, ScriptFault> {
    let mut suites = Vec::new(heap);
    if text == "-" {
        return Ok(suites);
    }
    for word in text.split(',') {
        let Some(suite) = read_suite(word.as_bytes()) else {
            return Err(ScriptFault::BadSuite);
        };
        suites.push(suite)?;
    }
    Ok(suites)
}
