ghost use Rattle.std.specs.Prelude.{◌≡◌};
ghost use Rattle.ev_listener_json.specs.ServerNames.{has_star, after_star, is_server_name, has_no_name};

use ev_types::Text;

/// Whether one of these texts is no server name: it is empty, or has a star but that of a leading `*.` that
/// something follows.
pub fn has_no_name(texts: &[Text]) -> bool
    ensures { result ≡ has_no_name texts.now }
{
    texts
        .iter()
        .any(|text| !is_server_name(text.as_str().as_bytes()))
}

// Whether a text is a server name.
fn is_server_name(name: &[u8]) -> bool
    ensures { result ≡ is_server_name name.now }
{
    name.len() != 0 && !has_star(after_star(name))
}

// Whether there is a star among these bytes.
fn has_star(name: &[u8]) -> bool
    ensures { result ≡ has_star name.now }
{
    name.iter().any(|byte| *byte == b'*')
}

// What comes after a leading `*.` that something follows.
fn after_star(name: &[u8]) -> &[u8]
    ensures { result.now ≡ after_star name.now }
{
    if name.len() <= 2 {
        return name;
    }
    let (front, rest) = name.split_at(2);
    if front == b"*.".as_slice() {
        rest
    } else {
        name
    }
}
