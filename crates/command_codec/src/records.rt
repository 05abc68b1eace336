//! Services, checks and operations, field after field.

ghost use Rattle.std.specs.Prelude.{◌≡◌, ◌∷◌, [], OnOk};
ghost use Rattle.std.specs.List.{fold};
ghost use Rattle.cat_model.specs.Spelling.{check_bytes, list_bytes, op_bytes, option_bytes, service_bytes, status_bytes, verb_bytes};

use crate::out::Out;
use crate::parts::{put_flag, put_number, put_session, put_text, put_texts, put_value};
use cat_model::{List, NewCheck, NewService, Status, TxnOp, Verb};

fn status_byte(status: Status) -> u8
    ensures { status_bytes status ≡ result ∷ [] }
{
    match status {
        Status::Passing => 0,
        Status::Warning => 1,
        Status::Critical => 2,
    }
}

fn verb_byte(verb: Verb) -> u8
    ensures { verb_bytes verb ≡ result ∷ [] }
{
    match verb {
        Verb::Set => 0,
        Verb::Cas => 1,
        Verb::Lock => 2,
        Verb::Unlock => 3,
        Verb::Get => 4,
        Verb::GetOrEmpty => 5,
        Verb::GetTree => 6,
        Verb::CheckIndex => 7,
        Verb::CheckSession => 8,
        Verb::CheckNotExists => 9,
        Verb::Delete => 10,
        Verb::DeleteTree => 11,
        Verb::DeleteCas => 12,
    }
}

#[tactic(auto, unfolding(cat_model::specs::Spelling::service_bytes))]
fn put_service<O: Out>(out: &mut O, service: &NewService) -> Result<(), O::Fault>
    ensures { OnOk result (O.seen out.new ≡ fold O.after (O.seen out.old) (service_bytes service.now)) }
{
    put_text(out, &service.id)?;
    put_text(out, &service.name)?;
    put_texts(out, &service.tags)?;
    put_text(out, &service.address)?;
    put_number(out, u64::from(service.port))?;
    put_flag(out, service.tag_override)
}

pub fn put_service_if_any<O: Out>(out: &mut O, service: &Option<NewService>) -> Result<(), O::Fault>
    ensures { OnOk result (O.seen out.new ≡ fold O.after (O.seen out.old) (option_bytes service_bytes service.now)) }
{
    match service {
        None => out.put_byte(0),
        Some(service) => {
            out.put_byte(1)?;
            put_service(out, service)
        }
    }
}

#[tactic(auto, unfolding(cat_model::specs::Spelling::check_bytes))]
fn put_check<O: Out>(out: &mut O, check: &NewCheck) -> Result<(), O::Fault>
    ensures { OnOk result (O.seen out.new ≡ fold O.after (O.seen out.old) (check_bytes check.now)) }
{
    put_text(out, &check.id)?;
    put_text(out, &check.name)?;
    out.put_byte(status_byte(check.status))?;
    put_text(out, &check.notes)?;
    put_text(out, &check.output)?;
    put_text(out, &check.service)
}

pub fn put_checks<O: Out>(out: &mut O, checks: &List<NewCheck>) -> Result<(), O::Fault>
    ensures { OnOk result (O.seen out.new ≡ fold O.after (O.seen out.old) (list_bytes check_bytes checks.now)) }
{
    let checks = checks.as_slice();
    put_number(out, checks.len() as u64)?;
    for check in checks {
        put_check(out, check)?;
    }
    Ok(())
}

#[tactic(auto, unfolding(cat_model::specs::Spelling::op_bytes))]
fn put_op<O: Out>(out: &mut O, op: &TxnOp) -> Result<(), O::Fault>
    ensures { OnOk result (O.seen out.new ≡ fold O.after (O.seen out.old) (op_bytes op.now)) }
{
    out.put_byte(verb_byte(op.verb))?;
    put_text(out, &op.key)?;
    put_value(out, &op.value)?;
    put_number(out, op.flags)?;
    put_number(out, op.index)?;
    put_session(out, op.session)
}

pub fn put_ops<O: Out>(out: &mut O, ops: &List<TxnOp>) -> Result<(), O::Fault>
    ensures { OnOk result (O.seen out.new ≡ fold O.after (O.seen out.old) (list_bytes op_bytes ops.now)) }
{
    let ops = ops.as_slice();
    put_number(out, ops.len() as u64)?;
    for op in ops {
        put_op(out, op)?;
    }
    Ok(())
}
