//! How the steps are printed.
use std::io;

/// A line with a name and octets in hexadecimal.
pub fn octets(rt: &HostRuntime, name: &str, list: &[u8]) -> io::Result<()> {
    print!(rt; "  {name}: ")?;
    for x in list {
        print!(rt; "{x:02x}")?;
    }
    println!(rt; "")
}

/// A line of words.
pub fn words(rt: &HostRuntime, text: &str) -> io::Result<()> {
    println!(rt; "  {text}")
}

/// The title of a part.
pub fn title(rt: &HostRuntime, text: &str) -> io::Result<()> {
    println!(rt; "{text}")
}
