// The code words of all components.
ghost use Rattle.std.specs.Prelude.{◌≡◌, ◌<◌, length, slice_get, IfOk, IfSome};

use crate::codes::Codes;
use allocation::{NoMemory, from_elem, from_slice};
use jpeg_marker::{Component, Plan};
use std::alloc::Global;
use std::marker::Model;

/// The code words of a component's two tables.
#[derive(Clone, Copy)]
pub struct ComponentCodes {
    pub dc: Codes,
    pub ac: Codes,
}

/// The code words of each component of the frame, by its index: none for one that the plan's scan leaves out. They have
/// 20 KB of memory of their own, so that they are no part of a stack frame. Clauses see the tables.
#[derive(Drop)]
pub struct PlanCodes {
    components: Vec<ComponentCodes>,
}

impl Model for PlanCodes {
    ghost use Rattle.std.specs.Prelude.{List};
    ghost use Rattle.huff_table.specs.declared.plan_codes.ComponentCodes.{ComponentCodes};

    ghost Value = { List ComponentCodes };

    ghost use Rattle.huff_table.specs.PlanWords.{components_of, AreComponents};

    ghost view = { components_of };

    ghost invariant = { AreComponents };
}

ghost use Rattle.std.specs.List.{AllByRecursion};
ghost use Rattle.huff_table.specs.BuiltCodes.{AreTables};
ghost use Rattle.huff_table.specs.ComponentTables.{tables_of, no_codes, codes_of};

impl ComponentCodes {
    /// The code words of a component's tables.
    pub fn build(component: &Component) -> ComponentCodes
        ensures value { result ≡ tables_of component.now }
        ensures kept { AreTables result }
    {
        ComponentCodes {
            dc: Codes::build(component.dc()),
            ac: Codes::build(component.ac()),
        }
    }

    // No code words, for a component that a scan leaves out.
    fn none() -> ComponentCodes
        ensures value { result ≡ no_codes }
        ensures kept { AreTables result }
    {
        ComponentCodes {
            dc: Codes::none(),
            ac: Codes::none(),
        }
    }
}

impl PlanCodes {
    /// The code words of a plan's tables. The one error is out of memory.
    #[cold]
    #[inline(never)]
    pub fn build(alloc: Global, plan: &Plan) -> Result<PlanCodes, NoMemory>
        ensures value { IfOk result (λ codes. codes ≡ codes_of plan.now.components) }
        ensures kept { IfOk result (λ codes. AllByRecursion AreTables codes) }
    {
        let components = plan.components();
        let mut all = from_elem(alloc, ComponentCodes::none(), 4)?;
        for component in components {
            all[usize::from(component.index())] = ComponentCodes::build(component);
        }
        Ok(PlanCodes { components: all })
    }

    /// The same code words in memory of their own. The one error is out of memory.
    #[cold]
    #[inline(never)]
    pub fn copied(&self, alloc: Global) -> Result<PlanCodes, NoMemory>
        ensures { IfOk result (λ copy. copy ≡ self.now) }
    {
        let components = from_slice(alloc, &self.components)?;
        Ok(PlanCodes { components })
    }

    /// The code words of a component's DC differences.
    pub fn dc(&self, component: usize) -> &Codes
        requires { component < length self.now }
        ensures { IfSome (slice_get self.now component) (λ c. result.now ≡ c.dc) }
    {
        &self.components()[component].dc
    }

    /// The code words of a component's AC coefficients.
    pub fn ac(&self, component: usize) -> &Codes
        requires { component < length self.now }
        ensures { IfSome (slice_get self.now component) (λ c. result.now ≡ c.ac) }
    {
        &self.components()[component].ac
    }

    /// The code words of each component of the frame, by its index.
    pub fn components(&self) -> &[ComponentCodes]
        ensures value { result.now ≡ self.now }
        ensures few { length self.now ≡ 4 }
        ensures kept { AllByRecursion AreTables self.now }
    {
        &self.components
    }
}
