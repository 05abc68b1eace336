ghost use Rattle.std.specs.Prelude.{◌≡◌};
ghost use Rattle.script_lang.specs.Lines as spec;

/// The forms of lines that say something.
#[derive(Clone, Copy, Debug)]
pub enum Form {
    Cluster,
    Timeout,
    Beat,
    Restart,
    Tick,
    AgentTick,
    Deliver,
    Drop,
    Settle,
    FailKeep,
    Sync,
    Http,
}

/// The form of lines with this first word.
pub fn form_of(name: &[u8]) -> Option<Form>
    ensures { result ≡ spec.form_of name.now }
{
    if name == b"cluster".as_slice() {
        Some(Form::Cluster)
    } else if name == b"timeout".as_slice() {
        Some(Form::Timeout)
    } else if name == b"beat".as_slice() {
        Some(Form::Beat)
    } else if name == b"restart".as_slice() {
        Some(Form::Restart)
    } else if name == b"tick".as_slice() {
        Some(Form::Tick)
    } else if name == b"agenttick".as_slice() {
        Some(Form::AgentTick)
    } else if name == b"deliver".as_slice() {
        Some(Form::Deliver)
    } else if name == b"drop".as_slice() {
        Some(Form::Drop)
    } else if name == b"settle".as_slice() {
        Some(Form::Settle)
    } else if name == b"failkeep".as_slice() {
        Some(Form::FailKeep)
    } else if name == b"sync".as_slice() {
        Some(Form::Sync)
    } else if name == b"http".as_slice() {
        Some(Form::Http)
    } else {
        None
    }
}
