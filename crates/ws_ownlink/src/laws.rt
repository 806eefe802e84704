// Laws of own links. Each function's contract is a law, and its body is empty.
ghost use Rattle.ws_ownlink.specs.OwnLink.{OneOwnLink, OwnLinksFit};

/// A topic and the Link fields of a reply have one own link.
pub fn one_own_link()
    ensures { OneOwnLink }
{}

/// The own link of a topic that is a key can be carried by a Link field.
pub fn own_links_fit()
    ensures { OwnLinksFit }
{}
