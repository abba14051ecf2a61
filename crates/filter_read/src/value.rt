// The values of a request's clauses, judged.
ghost use Rattle.filter_read.specs.Value.{JudgeValuesPromise};

use crate::wrong_value::{clause_number, has_wrong_value};
use answers::Refusal;
use answers::wire::NETLOGON_NT_VERSION_1;
use filter::request::Request;

// The values of a request: 9 over the whole filter, else the version asked for, 1 where none is given.
pub fn judge_values(s: &[u8], request: Request) -> Result<u32, Refusal>
    ensures { JudgeValuesPromise s.now request result }
{
    let nt_ver = request.nt_ver;
    let aac = request.aac;
    let user = request.user;
    if has_wrong_value(s, nt_ver, aac, user) {
        return Err(Refusal::ClauseValue);
    }
    let Some(stretch) = nt_ver else {
        return Ok(NETLOGON_NT_VERSION_1);
    };
    Ok(clause_number(s, stretch))
}
