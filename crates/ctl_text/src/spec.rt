ghost use Rattle.std.specs.Prelude.{◌≡◌, length};
ghost use Rattle.ctl_text.specs.Normals.{AreNormals};
ghost use Rattle.ctl_text.specs.SoundValue.{IsSoundValue};
ghost use Rattle.ctl_text.specs.Value.{SpecParts, kind_ends, network_of};

use ctl_form::{Normal, PairSpec};
use interconnection::Network;
use std::marker::Model;

/// A specification: the network of its processes, its kinds of pairs, and the normal form of each kind, in the order of their numbers.
/// `read_spec` alone makes one.
#[derive(Drop)]
pub struct Spec {
    network: Network,
    kinds: Vec<PairSpec>,
    normals: Vec<Normal>,
}

impl Model for Spec {
    ghost use Rattle.std.specs.Prelude.{◌≡◌};
    ghost use Rattle.std.specs.Coded.{codes};
    ghost use Rattle.ctl_form.specs.inside.CodeBack.{form_code};
    ghost use Rattle.ctl_text.specs.Normals.{AreNormals};
    ghost use Rattle.ctl_text.specs.SoundValue.{IsSoundValue};
    ghost use Rattle.ctl_text.specs.Value.{SpecParts, kind_ends};

    ghost Value = { SpecParts };

    ghost coded = { Prim.hlevel (codes, form_code) };

    ghost view = { λ s. record { roles = s.network.roles; kinds = s.kinds.items; processes = s.network.processes; edges = s.network.edges } };

    ghost invariant = { λ s. (s.network.ends ≡ kind_ends s.kinds.items) × IsSoundValue (record { roles = s.network.roles; kinds = s.kinds.items; processes = s.network.processes; edges = s.network.edges }) × AreNormals s.network.roles s.kinds.items s.normals.items };
}

impl Spec {
    /// The specification with this network, these kinds, and their normal forms.
    pub(crate) fn of(network: Network, kinds: Vec<PairSpec>, normals: Vec<Normal>) -> Spec
        requires ends { network.ends ≡ kind_ends kinds.items }
        requires sound { IsSoundValue (record { roles = network.roles; kinds = kinds.items; processes = network.processes; edges = network.edges }) }
        requires normals { AreNormals network.roles kinds.items normals.items }
        ensures { result ≡ record { roles = network.roles; kinds = kinds.items; processes = network.processes; edges = network.edges } }
    {
        Spec {
            network,
            kinds,
            normals,
        }
    }

    /// The network of its processes, of which kind k has the two roles of kind k of the specification.
    pub fn network(&self) -> &Network
        ensures network { result.now ≡ network_of self.now }
        ensures sound { IsSoundValue self.now }
    {
        &self.network
    }

    /// The kinds of pairs, in the order of their numbers.
    pub fn kinds(&self) -> &[PairSpec]
        ensures kinds { result.now ≡ self.now.kinds }
        ensures sound { IsSoundValue self.now }
    {
        &self.kinds
    }

    /// The normal form of each kind, made where the kind ended.
    pub fn normals(&self) -> &[Normal]
        ensures normals { AreNormals self.now.roles self.now.kinds result.now }
        ensures each { length result.now ≡ length self.now.kinds }
    {
        &self.normals
    }
}
