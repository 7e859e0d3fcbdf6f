//! The addresses and terms of an offered service.
ghost use Rattle.std.specs.Prelude.{◌≡◌, ◌+◌, ◌*◌, ◌^◌, ◌≤◌, ◌⊎◌, ◌++◌, IfNone, IfOk, IfSome, length, option_map};
ghost use Rattle.std.specs.Prelude.{unwrap_or};
ghost use Rattle.std.specs.Duration.{as_nanos};
ghost use Rattle.std.specs.Net.Socket.{socket_ip, socket_port};
ghost use Rattle.nesl_cli.specs.Program.{limits_by};
ghost use Rattle.nesl_cli.specs.Offered.{has_lines, line_threads, lines_host, nanos_in, page_host, service_offered};
ghost use Rattle.nesl_cli.specs.Offered.{users_offered, workers_in, IsHost, IsNoHost};
ghost use Rattle.nesl_words.specs.Listed.{names_listed};
ghost use Rattle.nesl_words.specs.Wanted.{limits_wanted};

use crate::run::{LIMITS, Offer};
use nesl_service::service::{FIRST_LINE_SECONDS, Terms};
use nesl_service::wire::Patience;
use nesl_session::limits::Limits;
use nesl_words::limit_words::LimitWords;
use nesl_words::listed::names_listed;
use std::alloc::{AllocError, Global};
use std::net::{IpAddr, Ipv4Addr, SocketAddr};
use std::time::Duration;

// Returns the IP address that a text writes, or else the one by which this machine reaches itself.
fn host_ip(text: Option<&str>) -> Option<IpAddr>
    ensures host { IfSome result (IsHost (option_map (λ text. text.now) text.entry)) }
    ensures none { IfNone result (IsNoHost (option_map (λ text. text.now) text.entry)) }
{
    match text {
        Some(text) => text.parse::<IpAddr>().ok(),
        None => Some(IpAddr::V4(Ipv4Addr::LOCALHOST)),
    }
}

// Returns the address of a port. There is none for ports above 65,535, or if the text writes no IP address.
fn address_at(host: Option<&str>, port: usize) -> Option<SocketAddr>
    ensures host { IfSome result (λ address. IsHost (option_map (λ text. text.now) host.entry) (socket_ip address)) }
    ensures port { IfSome result (λ address. socket_port address ≡ port) }
    ensures none { IfNone result ((2 ^ 16 ≤ port) ⊎ IsNoHost (option_map (λ text. text.now) host.entry)) }
{
    let ip = host_ip(host)?;
    match u16::try_from(port) {
        Ok(port) => Some(SocketAddr::new(ip, port)),
        Err(_) => None,
    }
}

// Returns the limit that is given, or else the usual one.
fn limit_or(given: Option<usize>, usual: u64) -> u64
    ensures { result ≡ unwrap_or given usual }
{
    match given {
        Some(given) => given as u64,
        None => usual,
    }
}

/// Returns the limits that are given by words, and else the usual ones.
pub(crate) fn limits_by(given: LimitWords) -> Limits
    ensures { result ≡ limits_by (limits_wanted given) }
{
    Limits {
        line_work: limit_or(given.line_work, LIMITS.line_work),
        session_work: limit_or(given.session_work, LIMITS.session_work),
        elements: limit_or(given.elements, LIMITS.elements),
        transcript_lines: limit_or(given.transcript_lines, LIMITS.transcript_lines),
        transcript_bytes: limit_or(given.transcript_bytes, LIMITS.transcript_bytes),
    }
}

impl<'a> Offer<'a> {
    /// Returns the same service, offered to the users whom a text lists, too, after the others.
    pub fn with_users(&self, alloc: Global, text: &'a str) -> Result<Offer<'a>, AllocError>
        ensures users { IfOk result (λ offer. users_offered offer
            ≡ users_offered self.now ++ names_listed text.now) }
        ensures service { IfOk result (λ offer. service_offered offer ≡ service_offered self.now) }
    {
        let listed = names_listed(alloc, text)?;
        let mut users = Vec::from_slice(alloc, self.users.as_slice())?;
        users.extend_from_slice(listed.as_slice())?;
        Ok(Offer {
            users,
            service: self.service,
        })
    }
}

impl Offer<'_> {
    /// Returns the address where lines are listened to: that of `--bind` if users have keys, or else this machine's
    /// own. Port 0 is one that the system picks. There is none for ports above 65,535, or if `--bind` is no IP address.
    pub fn address(&self) -> Option<SocketAddr>
        ensures host { IfSome result (λ address. IsHost (lines_host (service_offered self.now)) (socket_ip address)) }
        ensures port { IfSome result (λ address. socket_port address ≡ unwrap_or self.now.service.port 0) }
        ensures none { IfNone result ((2 ^ 16 ≤ unwrap_or self.now.service.port 0)
            ⊎ IsNoHost (lines_host (service_offered self.now))) }
    {
        address_at(self.lines_host(), self.service.port.unwrap_or(0))
    }

    /// Returns the address of a port for the page. It is as that for lines, but this machine's own if a header names
    /// the users of the page.
    pub fn page_address(&self, port: usize) -> Option<SocketAddr>
        ensures host { IfSome result (λ address. IsHost (page_host (service_offered self.now)) (socket_ip address)) }
        ensures port { IfSome result (λ address. socket_port address ≡ port) }
        ensures none { IfNone result ((2 ^ 16 ≤ port) ⊎ IsNoHost (page_host (service_offered self.now))) }
    {
        match self.service.user_header {
            Some(_) => address_at(None, port),
            None => address_at(self.lines_host(), port),
        }
    }

    // Returns the address where lines are listened to, as it is written.
    fn lines_host(&self) -> Option<&str>
        ensures { option_map (λ text. text.now) result ≡ lines_host (service_offered self.now) }
    {
        match self.service.keys {
            Some(_) => self.service.bind,
            None => None,
        }
    }

    /// Whether the port for lines is listened to. Where a header names the users of the page, it is only if they have
    /// keys.
    pub fn has_lines(&self) -> bool
        ensures { result ≡ has_lines (service_offered self.now) }
    {
        self.service.user_header.is_none() || self.service.keys.is_some()
    }

    /// Returns the limits of each session: those that are given by words, and else the usual ones.
    pub fn limits(&self) -> Limits
        ensures { result ≡ limits_by (service_offered self.now).limits }
    {
        limits_by(self.service.limits)
    }

    /// The number of threads that serve browsers: one for each user, and four for requests for the page.
    pub fn page_threads(&self) -> usize
        ensures { result ≡ length self.now.users.items + 4 }
    {
        self.users.len() + 4
    }

    /// Returns the terms of the service. One thread for each user, and one more, serve lines, if their port is listened
    /// to.
    pub fn terms(&self) -> Terms
        ensures threads { result.threads ≡ line_threads (service_offered self.now) (length self.now.users.items) }
        ensures workers { result.workers ≡ workers_in self.now.service.workers }
        ensures connections { result.connections ≡ self.now.service.connections }
        ensures first_line { as_nanos result.patience.first_line ≡ nanos_in (unwrap_or self.now.service.first_line 10) }
        ensures idle { option_map as_nanos result.patience.idle ≡ option_map nanos_in self.now.service.idle }
    {
        Terms {
            threads: if self.has_lines() {
                self.users.len() + 1
            } else {
                0
            },
            workers: u32::try_from(self.service.workers.unwrap_or(0)).unwrap_or(0),
            connections: match self.service.connections {
                Some(connections) => Some(connections as u64),
                None => None,
            },
            patience: Patience {
                first_line: match self.service.first_line {
                    Some(seconds) => Duration::from_secs(seconds as u64),
                    None => Duration::from_secs(FIRST_LINE_SECONDS),
                },
                idle: match self.service.idle {
                    Some(seconds) => Some(Duration::from_secs(seconds as u64)),
                    None => None,
                },
            },
        }
    }
}
