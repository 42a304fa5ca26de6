// Whether there is a connection.
ghost use Rattle.std.specs.Prelude.{◌≡◌};

#[derive(Clone, Copy, PartialEq, Eq, Debug)]
pub struct Connection {
    pub linked: bool,
}

impl Connection {
    // The element of a plain truth value; its field `linked` gives it back.
    pub fn new(linked: bool) -> Connection
        ensures { result.linked ≡ linked }
    {
        Connection { linked }
    }
}
