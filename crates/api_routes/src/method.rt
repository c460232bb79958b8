// The methods that have routes (RFC 9110, section 9.3).
ghost use Rattle.std.specs.Prelude.{◌≡◌};
ghost use Rattle.api_routes.specs.Routes.{method_of};

/// The methods that have routes.
#[derive(Clone, Copy, PartialEq, Eq, Debug, Drop)]
pub enum Method {
    Get,
    Head,
    Post,
    Delete,
}

impl Method {
    /// The method of this name, if it has routes.
    pub fn of(name: &str) -> Option<Method>
        ensures { result ≡ method_of name.now }
    {
        match name {
            "GET" => Some(Method::Get),
            "HEAD" => Some(Method::Head),
            "POST" => Some(Method::Post),
            "DELETE" => Some(Method::Delete),
            _ => None,
        }
    }
}
