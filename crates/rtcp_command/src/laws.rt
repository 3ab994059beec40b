//! A law of the program's options. The function is empty, and its postcondition is the law.

ghost use Rattle.std.specs.Prelude.{◌≡◌, ◌↔◌, ℕ, List, Some};
ghost use Rattle.rtcp_command.specs.Endpoints.{Endpoint, IsEndpointText, endpoint_in};

/// An endpoint is read from the text that `Display` writes of it, and from no other.
pub fn one_endpoint_text()
    ensures { (text : List ℕ) (endpoint : Endpoint)
        → (endpoint_in text ≡ Some endpoint) ↔ IsEndpointText text endpoint }
{}
