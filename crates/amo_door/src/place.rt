//! The places of the door, and the methods that they take.
ghost use Rattle.std.specs.Prelude.{◌≡◌};
ghost use Rattle.amo_door.specs.Place.{method_of, methods_of, side_of, takes};

use amo_object::End;

/// A place that a request may name.
#[derive(Clone, Copy, PartialEq, Eq)]
pub enum Place {
    /// `/`: the page.
    Page,
    /// `/healthz`: whether the host can work.
    Health,
    /// `/metrics`: what it counted.
    Metrics,
    /// `/v1`: the host.
    Host,
    /// `/v1/events`: what happens.
    Events,
    /// `/v1/streams/3`: a stream.
    Stream,
    /// `/v1/streams/3/messages`: the messages of a stream.
    Messages,
    /// `/v1/streams/3/messages/18`: a message of a stream.
    Message,
    /// `/v1/streams/3/take`: the next message of a stream.
    Take,
    /// `/v1/streams/3/got`: the messages that were got of a stream.
    Got,
}

/// How a request asks.
#[derive(Clone, Copy, PartialEq, Eq)]
pub enum Method {
    /// For what is there.
    Get,
    /// For what a GET answers, without its body.
    Head,
    /// To put something there.
    Put,
    /// To do something.
    Post,
    /// In another way, in which no place is asked.
    Other,
}

impl Method {
    /// The method of this name.
    pub fn read(name: &[u8]) -> Method
        ensures { result ≡ method_of name.now }
    {
        match name {
            b"GET" => Method::Get,
            b"HEAD" => Method::Head,
            b"PUT" => Method::Put,
            b"POST" => Method::Post,
            _ => Method::Other,
        }
    }
}

impl Place {
    /// Whether it takes this method.
    pub fn takes(self, method: Method) -> bool
        ensures { result ≡ takes self method }
    {
        match self {
            Place::Messages | Place::Take => method == Method::Post,
            Place::Message => matches!(method, Method::Get | Method::Head | Method::Put),
            Place::Events => method == Method::Get,
            _ => matches!(method, Method::Get | Method::Head),
        }
    }

    /// The methods that it takes, as a field `Allow` spells them.
    pub fn methods(self) -> &'static str
        ensures { result.now ≡ methods_of self }
    {
        match self {
            Place::Messages | Place::Take => "POST",
            Place::Message => "GET, HEAD, PUT",
            Place::Events => "GET",
            _ => "GET, HEAD",
        }
    }

    /// The side whose hosts alone have it; none where all have.
    pub fn side(self) -> Option<End>
        ensures { result ≡ side_of self }
    {
        match self {
            Place::Messages | Place::Message => Some(End::Sender),
            Place::Take | Place::Got => Some(End::Receiver),
            _ => None,
        }
    }
}
