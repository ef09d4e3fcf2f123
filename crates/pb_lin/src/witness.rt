// Substitutions.
ghost use Rattle.std.specs.Prelude.{◌≡◌, ◌<◌, if◌then◌else◌, AllPairs, Bool, List};
ghost use Rattle.pb_lin.specs.Place.{IsPlace};
ghost use Rattle.pb_lin.specs.Substitution.{IsWitness, has_image, image_of, image_true, opposite_image, touches, true_under};

use crate::Constraint;
use scut_base::{Duplicate, Items, Lit, NoMemory};
use std::alloc::Global;
use std::marker::Model;

/// What stands for a variable.
#[derive(Clone, Copy, Debug, PartialEq, Eq)]
pub enum Image {
    /// The variable is false.
    Zero,
    /// The variable is true.
    One,
    /// The variable is as true as this literal.
    Lit(Lit),
}

impl Duplicate for Image {
    fn copy(&self, _alloc: Global) -> Result<Image, NoMemory> {
        Ok(*self)
    }
}

/// A substitution: variables, in rising order, with what stands for each. It is the witness of
/// redundance-based strengthening (Gocht and Nordström 2021).
#[derive(Debug, Drop)]
pub struct Witness {
    images: Items<(u64, Image)>,
}

impl Model for Witness {
    ghost use Rattle.pb_lin.specs.Substitution.{Images, IsWitness};

    ghost Value = { Images };

    ghost view = { λ w. w.images };

    ghost invariant = { λ w. IsWitness w.images };
}

impl Witness {
    /// The substitution of these images, whose variables rise. Takes no memory.
    pub fn from_images(images: Items<(u64, Image)>) -> Witness
        requires { IsWitness images }
        ensures { result ≡ images }
    {
        Witness { images }
    }

    /// The variables with their images, in rising order.
    pub fn images(&self) -> &[(u64, Image)]
        ensures value { result.now ≡ self.now }
        ensures rising { IsWitness self.now }
    {
        self.images.as_slice()
    }

    /// Whether the variable has an image. Takes a binary search.
    pub fn has_image(&self, var: u64) -> bool
        ensures { result ≡ has_image self.now var }
    {
        let images = self.images();
        let place = image_place(images, var);
        place < images.len() && images[place].0 == var
    }

    /// What stands for a literal: itself where its variable has no image. Takes a binary search.
    pub fn image_of(&self, lit: Lit) -> Image
        ensures value { result ≡ image_of self.now lit }
        ensures truth { (a : List Bool) → image_true a result ≡ true_under self.now a lit }
    {
        let images = self.images();
        let place = image_place(images, lit.var());
        if place < images.len() && images[place].0 == lit.var() {
            signed(images[place].1, lit.is_neg())
        } else {
            Image::Lit(lit)
        }
    }

    /// Whether some variable of the constraint has an image. Takes a binary search for each.
    pub fn touches(&self, c: &Constraint) -> bool
        ensures { result ≡ touches self.now c.now }
    {
        c.literals().iter().any(|lit| self.has_image(lit.var()))
    }
}

impl Duplicate for Witness {
    fn copy(&self, alloc: Global) -> Result<Witness, NoMemory> {
        Ok(Witness {
            images: Items::from_vec(Vec::from_slice(alloc, self.images.as_slice())?),
        })
    }
}

// The first place whose variable isn't below the given one, by binary search.
fn image_place(images: &[(u64, Image)], var: u64) -> usize
    requires { AllPairs (λ i j. i.0 < j.0) images.now }
    ensures { IsPlace (λ i. i.0) images.now var result }
{
    images.partition_point(|image| image.0 < var)
}

// An image, or that of the opposite literal.
fn signed(image: Image, neg: bool) -> Image
    ensures { result ≡ (if neg then opposite_image image else image) }
{
    if !neg {
        return image;
    }
    match image {
        Image::Zero => Image::One,
        Image::One => Image::Zero,
        Image::Lit(literal) => Image::Lit(literal.not()),
    }
}
