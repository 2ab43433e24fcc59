//! Who may ask at the door.
ghost use Rattle.std.specs.Prelude.{◌≡◌, ◌++◌, bytes_eq, codes, option_copied};
ghost use Rattle.amo_door.specs.Guard.{admits_host, admits_origin, admits_site, admits_token, verdict};

use crate::Refusal;

/// By which names a door is asked, and with which token.
#[derive(Drop)]
pub struct Guard {
    /// The names, each with its port, as `127.0.0.1:7003`. A request that names another host is refused, and so is one that a page of another origin
    /// makes: else any page in a browser could ask at a local port.
    pub hosts: Vec<String>,
    /// The token that each request has to bring, if one is wanted.
    pub token: Option<String>,
}

/// What the head of a request says of who asks.
#[derive(Clone, Copy)]
pub struct Credentials<'a> {
    /// The field `Host`, which a request of HTTP/1.0 may lack.
    pub host: Option<&'a [u8]>,
    /// The field `Origin`, by which a browser tells which page asks.
    pub origin: Option<&'a [u8]>,
    /// The field `Sec-Fetch-Site`, by which a browser tells how far away the page is that has it ask, also where it tells no origin; nothing where somebody
    /// opens the door's own page.
    pub site: Option<&'a [u8]>,
    /// The field `Authorization`.
    pub authorization: Option<&'a [u8]>,
}

impl Guard {
    /// Sees that a request with these fields may ask here.
    pub fn check(&self, credentials: &Credentials<'_>) -> Result<(), Refusal>
        ensures { result ≡ verdict self.now credentials.now }
    {
        if !self.admits_host(credentials.host) {
            return Err(Refusal::Host);
        }
        if !self.admits_origin(credentials.origin) {
            return Err(Refusal::Origin);
        }
        if !admits_site(credentials.site) {
            return Err(Refusal::Origin);
        }
        if !self.admits_token(credentials.authorization) {
            return Err(Refusal::Token);
        }
        Ok(())
    }

    fn admits_host(&self, host: Option<&[u8]>) -> bool
        ensures { result ≡ admits_host self.now (option_copied host.entry) }
    {
        let Some(host) = host else {
            return true;
        };
        for name in &self.hosts {
            if host == name.as_bytes() {
                return true;
            }
        }
        false
    }

    fn admits_origin(&self, origin: Option<&[u8]>) -> bool
        ensures { result ≡ admits_origin self.now (option_copied origin.entry) }
    {
        let Some(origin) = origin else {
            return true;
        };
        for name in &self.hosts {
            if is_origin_of(origin, name.as_bytes()) {
                return true;
            }
        }
        false
    }

    fn admits_token(&self, authorization: Option<&[u8]>) -> bool
        ensures { result ≡ admits_token self.now (option_copied authorization.entry) }
    {
        let Some(token) = &self.token else {
            return true;
        };
        match authorization {
            Some(field) => is_bearer_of(field, token.as_bytes()),
            None => false,
        }
    }
}

/// Whether a page so far away may ask: not one of another site, or of another port of this machine (Fetch Metadata Request Headers, section 2.3). What is no
/// word of these is passed over, as that section has it.
fn admits_site(site: Option<&[u8]>) -> bool
    ensures { result ≡ admits_site (option_copied site.entry) }
{
    match site {
        Some(site) => site != b"cross-site".as_slice() && site != b"same-site".as_slice(),
        None => true,
    }
}

/// Whether an origin is that of pages of this host (RFC 6454).
fn is_origin_of(origin: &[u8], host: &[u8]) -> bool
    ensures { result ≡ bytes_eq origin.now (codes "http://" ++ host.now) }
{
    match origin.strip_prefix(b"http://") {
        Some(rest) => rest == host,
        None => false,
    }
}

/// Whether a field `Authorization` brings this token (RFC 6750).
fn is_bearer_of(field: &[u8], token: &[u8]) -> bool
    ensures { result ≡ bytes_eq field.now (codes "Bearer " ++ token.now) }
{
    match field.strip_prefix(b"Bearer ") {
        Some(rest) => is_same(rest, token),
        None => false,
    }
}

/// Whether two texts are one. The time that it takes tells their lengths and no more, so that nobody finds a secret byte by byte.
fn is_same(text: &[u8], secret: &[u8]) -> bool
    ensures { result ≡ bytes_eq text.now secret.now }
{
    if text.len() != secret.len() {
        return false;
    }
    let mut differing = 0u64;
    for place in 0..text.len() {
        differing += u64::from(text[place] != secret[place]);
    }
    differing == 0
}
