// 18: the names of an EX reply have no empty label, and the user's name is the only one that could.
ghost use Rattle.std.specs.Prelude.{◌≡◌, false, not, ◌&&◌, ◌≤◌, eqb, length};
ghost use Rattle.octets.specs.Label.{labels};
ghost use Rattle.octets.specs.Lists.{any, holds};
ghost use Rattle.unicode_text.specs.UserName.{is_user_name};
ghost use Rattle.filter.specs.Request.{octets_of};
ghost use Rattle.locator.specs.Answer.{is_ex};

use answers::Form;
use name_rules::name_rule::has_good_labels;
use octets::part::Stretch;

fn is_ex(form: Form) -> bool
    ensures { result ≡ is_ex form }
{
    matches!(form, Form::Ex)
}

// A user's name is too short for a label of over 63 octets, so one that is not good is empty.
fn has_empty_label(name: &[u8]) -> bool
    requires { length name.now ≤ 63 }
    ensures { result ≡ any (λ l. eqb (length l) 0) (labels name.now) }
{
    if name.len() == 0 {
        return false;
    }
    !has_good_labels(name)
}

pub fn is_wrong_user(form: Form, source: &[u8], user: Option<Stretch>) -> bool
    requires { holds (λ x. not (is_user_name x)) (octets_of source.now user) ≡ false }
    ensures { result ≡ (is_ex form && holds (λ name. any (λ l. eqb (length l) 0) (labels name)) (octets_of source.now user)) }
{
    if !is_ex(form) {
        return false;
    }
    let Some(user) = user else {
        return false;
    };
    has_empty_label(user.of(source))
}
