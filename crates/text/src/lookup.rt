// The value of a key in entries whose keys rise.
ghost use Rattle.std.specs.Prelude.{◌≡◌};
ghost use Rattle.text.specs.Mapping.{Rising, lookup_in};

// The value of a key, if an entry has it. One below all keys, as that of two ASCII bytes is among pairs, is not sought.
pub(crate) fn lookup(entries: &[[u32; 2]], key: u32) -> Option<u32>
    requires { Rising entries.now }
    ensures { result ≡ lookup_in key entries.now }
{
    if let Some(&[first, _]) = entries.first()
        && key < first
    {
        return None;
    }
    match entries.binary_search_by_key(&key, |entry| entry[0]) {
        Ok(at) => Some(entries[at][1]),
        Err(_) => None,
    }
}
