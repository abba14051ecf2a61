// A request as the members of `struct locator_request`: for each clause, in document 01's order, whether it is present, its start and its length.
ghost use Rattle.std.specs.Prelude.{◌≡◌, ◌≤◌};
ghost use Rattle.c_request.specs.Request.{clause_at, request_given, clause_members, request_members, taken_members};
ghost use Rattle.c_request.specs.Internal.Put.{clause_put};

use answers::Refusal;
use filter::request::Request;
use octets::part::Stretch;

pub const REQUEST_MEMBERS: usize = 24;

// 0 is absent, any other number present: absent and empty stay distinct.
fn clause_at(members: &[usize; REQUEST_MEMBERS], at: usize) -> Option<Stretch>
    requires { at ≤ 21 }
    ensures { result ≡ clause_at members.now at }
{
    if members[at] == 0 {
        return None;
    }
    Some(Stretch {
        start: members[at + 1],
        len: members[at + 2],
    })
}

// The request that a caller's members make.
pub fn request_of(members: &[usize; REQUEST_MEMBERS]) -> Request
    ensures { result ≡ request_given members.now }
{
    Request {
        dns_domain: clause_at(members, 0),
        host: clause_at(members, 3),
        dns_host_name: clause_at(members, 6),
        user: clause_at(members, 9),
        aac: clause_at(members, 12),
        domain_sid: clause_at(members, 15),
        domain_guid: clause_at(members, 18),
        nt_ver: clause_at(members, 21),
    }
}

fn clause_members(clause: Option<Stretch>) -> [usize; 3]
    ensures { result ≡ clause_members clause }
{
    match clause {
        None => [0, 0, 0],
        Some(stretch) => [1, stretch.start, stretch.len],
    }
}

fn put_clause(members: &mut [usize; REQUEST_MEMBERS], at: usize, clause: Option<Stretch>)
    requires { at ≤ 21 }
    ensures { members.new ≡ clause_put members.old at clause }
{
    let [presence, start, len] = clause_members(clause);
    members[at] = presence;
    members[at + 1] = start;
    members[at + 2] = len;
}

fn request_members(request: Request) -> [usize; REQUEST_MEMBERS]
    ensures { result ≡ request_members request }
{
    let mut members = [0; REQUEST_MEMBERS];
    put_clause(&mut members, 0, request.dns_domain);
    put_clause(&mut members, 3, request.host);
    put_clause(&mut members, 6, request.dns_host_name);
    put_clause(&mut members, 9, request.user);
    put_clause(&mut members, 12, request.aac);
    put_clause(&mut members, 15, request.domain_sid);
    put_clause(&mut members, 18, request.domain_guid);
    put_clause(&mut members, 21, request.nt_ver);
    members
}

// A filter taken apart: its request, with a refusal no clause.
pub fn taken_members(taken: Result<Request, Refusal>) -> [usize; REQUEST_MEMBERS]
    ensures { result ≡ taken_members taken }
{
    match taken {
        Ok(request) => request_members(request),
        Err(_) => [0; REQUEST_MEMBERS],
    }
}
