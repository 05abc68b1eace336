ghost use Rattle.std.specs.Prelude.{◌≡◌};
ghost use Rattle.load_player.specs.LoadScript as spec;

/// The method of a load's request.
#[derive(Clone, Copy, Debug, PartialEq, Eq)]
pub enum Method {
    Put,
    Get,
    Delete,
}

/// The method that a word tells.
pub fn method_of(word: u32) -> Method
    ensures { result ≡ spec.method_of word }
{
    match word / 1000 % 4 {
        2 => Method::Get,
        3 => Method::Delete,
        _ => Method::Put,
    }
}
