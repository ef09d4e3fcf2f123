// The names of the files that hold models and their logs.
ghost use Rattle.std.specs.Prelude.{◌≡◌, IfOk, string_bytes};
ghost use Rattle.command_check_models.specs.Words.{log_name, models_name};

use itoa::Buffer;
use scut_base::NoMemory;
use std::alloc::Global;

/// `BASE.models`, the file with the text of all models.
pub fn models_name(alloc: Global, base: &str) -> Result<String, NoMemory>
    ensures { IfOk result (λ name. string_bytes name ≡ models_name base.now) }
{
    let mut name = String::new(alloc);
    name.push_str(base)?;
    name.push_str(".models")?;
    Ok(name)
}

/// `BASE.n.log`, the file with the log of entry `n`, counted from 1.
pub fn log_name(alloc: Global, base: &str, n: u64) -> Result<String, NoMemory>
    ensures { IfOk result (λ name. string_bytes name ≡ log_name base.now n) }
{
    let mut name = String::new(alloc);
    name.push_str(base)?;
    name.push_str(".")?;
    name.push_str(Buffer::new().format(n))?;
    name.push_str(".log")?;
    Ok(name)
}
