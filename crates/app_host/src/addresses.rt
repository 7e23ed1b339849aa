//! The addresses to which ports belong.
ghost use Rattle.app_host.specs.Addresses.{IsAddress, IsPortOf};
ghost use Rattle.app_arguments.specs.Views.{text_view};
ghost use Rattle.std.specs.Prelude.{◌≡◌, IfSome, None};

use std::net::{IpAddr, Ipv4Addr, SocketAddr};

/// The address that this text is, or 127.0.0.1.
fn ip_of(address: Option<&str>) -> Option<IpAddr>
    ensures is { IfSome result (IsAddress (text_view address.entry)) }
    ensures none { result ≡ None → (ip : IpAddr) → ¬ IsAddress (text_view address.entry) ip }
{
    match address {
        Some(text) => match text.parse::<IpAddr>() {
            Ok(ip) => Some(ip),
            Err(_) => None,
        },
        None => Some(IpAddr::V4(Ipv4Addr::new(127, 0, 0, 1))),
    }
}

/// This port of the address that this text is, or of 127.0.0.1; none, if the text is no address.
pub fn port_of_address(address: Option<&str>, port: u16) -> Option<SocketAddr>
    ensures is { IfSome result (IsPortOf (text_view address.entry) port) }
{
    Some(SocketAddr::new(ip_of(address)?, port))
}

/// Whether only this machine can connect to the ports of the address that this text is, or to those of 127.0.0.1.
pub fn is_loopback(address: Option<&str>) -> bool {
    match ip_of(address) {
        Some(ip) => ip.to_canonical().is_loopback(),
        None => false,
    }
}
