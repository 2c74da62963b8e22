//! Keys of fields.

ghost use Rattle.std.specs.Prelude.{◌≡◌, ◌≤◌, ◌++◌, codes, length};

/// The key of a field: its name of up to 14 bytes, and what stands before a value with this key, in
/// text and in JSON. [`key!`](crate::key) makes it from the name.
#[derive(Clone, Copy)]
pub struct Key<'k> {
    pub name: &'k str,
    /// A blank, the name and `=`.
    pub text: &'k str,
    /// A comma, the name in quotes and a colon.
    pub json: &'k str,
    ghost text_is: { text.now ≡ codes " " ++ name.now ++ codes "=" },
    ghost json_is: { json.now ≡ codes ",\"" ++ name.now ++ codes "\":" },
    ghost short: { length name.now ≤ 14 },
}

/// The key of this name.
#[macro_export]
macro_rules! key {
    ($name:literal) => {
        $crate::Key {
            name: $name,
            text: concat!(" ", $name, "="),
            json: concat!(",\"", $name, "\":"),
        }
    };
}
