use ws_model::Bytes;

/// Where a request for a URL goes, and what it asks for there.
///
/// `host` has brackets around an IPv6 address, and `port` is the scheme's default where the URL has
/// none. `query` has no `?`, and is empty for a URL without a query too.
#[derive(Debug, Drop, PartialEq)]
pub struct Place {
    pub secure: bool,
    pub host: Bytes,
    pub port: u16,
    pub path: Bytes,
    pub query: Bytes,
}
