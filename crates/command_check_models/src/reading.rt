// Reading the text of all models.
ghost use Rattle.std.specs.Prelude.{◌≡◌, IfOk, IfErr};
ghost use Rattle.front_text.specs.ModelsText.{models_text};
ghost use Rattle.command_base.specs.Views.{OnlyReads};
ghost use Rattle.command_check_models.specs.Judging.{IsModelsText, IsReadingStop, IsTextStop};

use crate::files::models_name;
use crate::stop::ModelsStop;
use command_base::read_whole;
use front_text::{ModelsFault, Reps, read_models};
use representatives::RepsWhy;
use scut_base::{Items, Shelf, ShelfFault};
use std::alloc::Global;

// The models of all entries; else where their text goes wrong, or that it is too large.
pub(crate) fn read_all_models<H: Shelf>(
    alloc: Global,
    base: &str,
    shelf: &mut H,
) -> Result<Items<Reps>, ModelsStop>
    ensures read { IfOk result (IsModelsText (H.world shelf.old).files base.now) }
    ensures stop { IfErr result (λ stop. IsReadingStop stop (H.world shelf.old).files base.now
        (H.world shelf.old).faults (H.world shelf.new).faults) }
    ensures only_reads { OnlyReads (H.world shelf.old) (H.world shelf.new) }
{
    let Ok(name) = models_name(alloc, base) else {
        return Err(ModelsStop::NoMemory);
    };
    match read_whole(alloc, name.as_str(), shelf) {
        Ok(Some(bytes)) => models_of(alloc, &bytes),
        Ok(None) => Err(ModelsStop::Large),
        Err(ShelfFault::Failed) => Err(ModelsStop::ShelfFailed),
        Err(ShelfFault::NoMemory) => Err(ModelsStop::NoMemory),
    }
}

// The models whose text this is.
fn models_of(alloc: Global, bytes: &[u8]) -> Result<Items<Reps>, ModelsStop>
    ensures read { IfOk result (λ reps. bytes.now ≡ models_text reps) }
    ensures stop { IfErr result (IsTextStop bytes.now) }
{
    match read_models(alloc, bytes) {
        Ok(reps) => Ok(reps),
        Err(ModelsFault::Syntax { entry }) => Err(ModelsStop::Refused {
            entry,
            why: RepsWhy::Syntax,
        }),
        Err(ModelsFault::NoMemory) => Err(ModelsStop::NoMemory),
    }
}
